// The exit status of the script `halivomue`. The program itself ends with 0: with --status it writes
// the number to descriptor 3, and the script exits with that.
use files::Unsaid;
use line::Line;

#[derive(Clone, Copy, Debug, PartialEq, Eq)]
pub enum Status {
    Good = 0,
    // A file was refused or could not be read, or the answer could not be written.
    Failed = 1,
    Usage = 2,
    // Nobody reads standard output on. It is what a program gets that SIGPIPE ends: 128 + 13.
    Closed = 141,
}

// Whether all files were accepted, or what became of the last text.
impl From<Result<bool, Unsaid>> for Status {
    fn from(said: Result<bool, Unsaid>) -> Status {
        match said {
            Ok(true) => Status::Good,
            Ok(false) | Err(Unsaid::Failed) => Status::Failed,
            Err(Unsaid::Closed) => Status::Closed,
        }
    }
}

pub fn tell(status: Status) {
    let mut room = [0; 4];
    let mut line = Line::new(&mut room);
    line.put_number(status as usize);
    line.put_byte(b'\n');
    io::write_all(3, line.text());
}
