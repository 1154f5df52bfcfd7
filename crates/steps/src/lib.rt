// Definitions of document 01's steps and of Shorten. The only code is what Shorten did.
#![tactic(auto)]

// What Shorten did to a file: how many bytes the result has, whether anything changed, and how many instructions were copied,
// registers are new and instructions are rescued. A flag by itself: where arms were joined, the counts may be 0.
#[derive(Clone, Copy, Debug, PartialEq, Eq)]
pub struct Shortening {
    pub length: usize,
    pub moved: bool,
    pub grown: u32,
    pub fresh: u32,
    pub rescued: u32,
}
