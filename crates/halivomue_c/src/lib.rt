// The C interface of include/halivomue.h, in numbers and flags: C has no Result. Each member of an
// answer is stated to be that of the definition. Each answer is made in one function and not by a
// `From`, as in bench_c: the clauses here name each member, and the law of a record would be turned
// into them at each use.
#![tactic(auto)]

ghost use Rattle.std.specs.Prelude.{◌≡◌, ◌++◌, ◌+◌, ◌/◌, ◌≤◌, eqb, false, length, take, drop};
ghost use Rattle.read.specs.Reading.{reading, answer};
ghost use Rattle.tidy.specs.Tidy.{tidiness, Tidy};
ghost use Rattle.tidy.specs.Told.{tidiness_of};
ghost use Rattle.steps.specs.Shorten.{shorten, instructions};
ghost use Rattle.steps.specs.Told.{told};
ghost use Rattle.steps.specs.Slice.{some_test};
ghost use Rattle.steps.specs.Run.{sliced_form};
ghost use Rattle.machine.specs.Demand.{Demand3};
ghost use Rattle.demand.specs.Lengths.{Demand3Where};
ghost use Rattle.promise.specs.Promise.{held};
ghost use Rattle.word.specs.Word.{bit};
ghost use Rattle.accounts.specs.Accounts.{made, tally_in, joins, joined};
ghost use Rattle.accounts.specs.Saved.{saved as saved_of, Loaded};
ghost use Rattle.accounts.specs.History.{serve};
ghost use Rattle.halivomue_c.specs.Unpriced.{unpriced, price_in};

use accounts::{SAVED, WORDS};
use billing::Priced;
use inst::Reg;
use read::Refusal;
use steps::Shortening;

// The version is 0.6.
const MAJOR: u32 = 0;

const MINOR: u32 = 6;

#[unsafe(no_mangle)]
pub extern "C" fn halivomue_version() -> u32
    ensures { result ≡ 6 }
{
    MAJOR * 65536 + MINOR
}

// struct halivomue_reading of include/halivomue.h: `place` is its member `record`.
#[repr(C)]
#[derive(Clone, Copy)]
pub struct HalivomueReading {
    pub number: u32,
    pub place: u32,
}

#[unsafe(no_mangle)]
pub extern "C" fn halivomue_read(bytes: &[u8]) -> HalivomueReading
    ensures number { result.number ≡ (reading bytes.now).number }
    ensures place { result.place ≡ (reading bytes.now).place }
{
    match read::read(bytes) {
        Ok(()) => HalivomueReading {
            number: 0,
            place: 0,
        },
        Err(e) => HalivomueReading {
            number: u32::from(e.reason),
            place: e.place,
        },
    }
}

// struct halivomue_tidiness of include/halivomue.h: `place` is its member `record`.
#[repr(C)]
#[derive(Clone, Copy)]
pub struct HalivomueTidiness {
    pub number: u32,
    pub place: u32,
    pub tidy: u32,
    pub reg: u32,
}

// Its members in order, as numbers for C.
fn tidiness_with(number: u32, place: u32, tidy: u32, reg: u32) -> HalivomueTidiness
    ensures { result ≡ record { number = number; place = place; tidy = tidy; reg = reg } }
{
    HalivomueTidiness {
        number,
        place,
        tidy,
        reg,
    }
}

// The members that tell an answer of Tidy.
fn members(t: Result<Option<Reg>, Refusal>) -> HalivomueTidiness
    ensures number { result.number ≡ (tidiness_of t).number }
    ensures place { result.place ≡ (tidiness_of t).place }
    ensures tidy { result.tidy ≡ (tidiness_of t).tidy }
    ensures reg { result.reg ≡ (tidiness_of t).reg }
{
    match t {
        Ok(None) => tidiness_with(0, 0, 1, 0),
        Ok(Some(r)) => tidiness_with(0, 0, 0, r.0),
        Err(e) => tidiness_with(u32::from(e.reason), e.place, 0, 0),
    }
}

#[unsafe(no_mangle)]
pub extern "C" fn halivomue_tidy(bytes: &[u8]) -> HalivomueTidiness
    ensures number { result.number ≡ (tidiness bytes.now).number }
    ensures place { result.place ≡ (tidiness bytes.now).place }
    ensures tidy { result.tidy ≡ (tidiness bytes.now).tidy }
    ensures reg { result.reg ≡ (tidiness bytes.now).reg }
{
    members(tidy::tidy(bytes))
}

// struct halivomue_shortening of include/halivomue.h: `place` is its member `record`.
#[repr(C)]
#[derive(Clone, Copy)]
pub struct HalivomueShortening {
    pub number: u32,
    pub place: u32,
    pub length: usize,
    pub moved: u32,
    pub grown: u32,
    pub fresh: u32,
    pub rescued: u32,
}

// The members that tell a result of Shorten.
fn answer_of(r: Result<Shortening, Refusal>) -> HalivomueShortening
    ensures number { result.number ≡ (told r).number }
    ensures place { result.place ≡ (told r).place }
    ensures length { result.length ≡ (told r).length }
    ensures moved { result.moved ≡ (told r).moved }
    ensures grown { result.grown ≡ (told r).grown }
    ensures fresh { result.fresh ≡ (told r).fresh }
    ensures rescued { result.rescued ≡ (told r).rescued }
{
    match r {
        Ok(s) => HalivomueShortening {
            number: 0,
            place: 0,
            length: s.length,
            moved: s.moved as u32,
            grown: s.grown,
            fresh: s.fresh,
            rescued: s.rescued,
        },
        Err(refusal) => HalivomueShortening {
            number: u32::from(refusal.reason),
            place: refusal.place,
            length: 0,
            moved: 0,
            grown: 0,
            fresh: 0,
            rescued: 0,
        },
    }
}

#[unsafe(no_mangle)]
pub extern "C" fn halivomue_shorten(bytes: &[u8], out: &mut [u8]) -> HalivomueShortening
    ensures number { result.number ≡ (shorten bytes.now out.old).answer.number }
    ensures place { result.place ≡ (shorten bytes.now out.old).answer.place }
    ensures length { result.length ≡ (shorten bytes.now out.old).answer.length }
    ensures moved { result.moved ≡ (shorten bytes.now out.old).answer.moved }
    ensures grown { result.grown ≡ (shorten bytes.now out.old).answer.grown }
    ensures fresh { result.fresh ≡ (shorten bytes.now out.old).answer.fresh }
    ensures rescued { result.rescued ≡ (shorten bytes.now out.old).answer.rescued }
    ensures output { out.new ≡ (shorten bytes.now out.old).output }
    ensures accepted { result.number ≡ 0 → reading (take result.length out.new) ≡ answer 0 0 }
    ensures room { 61728 ≤ length out.old → result.number ≡ 9 → ⊥ }
    ensures unmoved { result.number ≡ 0 → result.moved ≡ 0
        → out.new ≡ bytes.now ++ drop (length bytes.now) out.old }
    ensures bound { result.number ≡ 0 → instructions (take result.length out.new)
        ≤ instructions bytes.now + instructions bytes.now / 2 + 36 }
    ensures demand3 { result.number ≡ 0 → Tidy (held bytes.now)
        → Demand3Where (held bytes.now) (sliced_form (held bytes.now)) (held (take result.length out.new)) result.rescued }
    ensures unsliced { result.number ≡ 0 → Tidy (held bytes.now) → some_test (sliced_form (held bytes.now)).tests ≡ false
        → Demand3 (held bytes.now) (held (take result.length out.new)) result.rescued }
{
    answer_of(shorten::shorten(bytes, out))
}

// struct halivomue_provisioning of include/halivomue.h: `place` is its member `record`.
#[repr(C)]
#[derive(Clone, Copy)]
pub struct HalivomueProvisioning {
    pub number: u32,
    pub place: u32,
    pub tidy: u32,
    pub reg: u32,
    pub length: usize,
    pub moved: u32,
    pub grown: u32,
    pub fresh: u32,
    pub rescued: u32,
}

#[unsafe(no_mangle)]
pub extern "C" fn halivomue_provision(bytes: &[u8], out: &mut [u8]) -> HalivomueProvisioning
    ensures number { result.number ≡ (shorten bytes.now out.old).answer.number }
    ensures place { result.place ≡ (shorten bytes.now out.old).answer.place }
    ensures tidy { result.tidy ≡ (tidiness bytes.now).tidy }
    ensures reg { result.reg ≡ (tidiness bytes.now).reg }
    ensures length { result.length ≡ (shorten bytes.now out.old).answer.length }
    ensures moved { result.moved ≡ (shorten bytes.now out.old).answer.moved }
    ensures grown { result.grown ≡ (shorten bytes.now out.old).answer.grown }
    ensures fresh { result.fresh ≡ (shorten bytes.now out.old).answer.fresh }
    ensures rescued { result.rescued ≡ (shorten bytes.now out.old).answer.rescued }
    ensures output { out.new ≡ (shorten bytes.now out.old).output }
    ensures accepted { result.number ≡ 0 → reading (take result.length out.new) ≡ answer 0 0 }
    ensures room { 61728 ≤ length out.old → result.number ≡ 9 → ⊥ }
    ensures unmoved { result.number ≡ 0 → result.moved ≡ 0
        → out.new ≡ bytes.now ++ drop (length bytes.now) out.old }
    ensures bound { result.number ≡ 0 → instructions (take result.length out.new)
        ≤ instructions bytes.now + instructions bytes.now / 2 + 36 }
    ensures demand3 { result.number ≡ 0 → Tidy (held bytes.now)
        → Demand3Where (held bytes.now) (sliced_form (held bytes.now)) (held (take result.length out.new)) result.rescued }
    ensures unsliced { result.number ≡ 0 → Tidy (held bytes.now) → some_test (sliced_form (held bytes.now)).tests ≡ false
        → Demand3 (held bytes.now) (held (take result.length out.new)) result.rescued }
    ensures promised { result.number ≡ 0 → result.tidy ≡ 1
        → Demand3Where (held bytes.now) (sliced_form (held bytes.now)) (held (take result.length out.new)) result.rescued }
{
    let p = shorten::tidy_and_shorten(bytes, out);
    let t = members(p.tidiness);
    let a = answer_of(p.shortening);
    HalivomueProvisioning {
        number: a.number,
        place: a.place,
        tidy: t.tidy,
        reg: t.reg,
        length: a.length,
        moved: a.moved,
        grown: a.grown,
        fresh: a.fresh,
        rescued: a.rescued,
    }
}

#[unsafe(no_mangle)]
pub extern "C" fn halivomue_accounts_make(accounts: &mut [u32; WORDS])
    ensures { accounts.new ≡ made }
{
    accounts::make(accounts)
}

#[unsafe(no_mangle)]
pub extern "C" fn halivomue_accounts_save(accounts: &[u32; WORDS], saved: &mut [u8; SAVED])
    ensures { saved.new ≡ saved_of (tally_in accounts.now) }
{
    accounts::save(accounts, saved)
}

#[unsafe(no_mangle)]
pub extern "C" fn halivomue_accounts_load(accounts: &mut [u32; WORDS], saved: &[u8]) -> u32
    ensures answer { result ≤ 1 }
    ensures is { Loaded saved.now accounts.old (eqb result 1) accounts.new }
{
    accounts::load(accounts, saved) as u32
}

#[unsafe(no_mangle)]
pub extern "C" fn halivomue_tally(accounts: &[u32; WORDS]) -> u32
    ensures { result ≡ tally_in accounts.now }
{
    accounts::tally(accounts)
}

#[unsafe(no_mangle)]
pub extern "C" fn halivomue_accounts_join(accounts: &mut [u32; WORDS], part: &[u32; WORDS]) -> u32
    ensures whether { result ≡ bit (joins accounts.old part.now) }
    ensures is { accounts.new ≡ joined accounts.old part.now }
{
    accounts::join(accounts, part) as u32
}

// struct halivomue_billing of include/halivomue.h: `place` is its member `record`.
#[repr(C)]
#[derive(Clone, Copy)]
pub struct HalivomueBilling {
    pub number: u32,
    pub place: u32,
    pub length: usize,
    pub moved: u32,
    pub grown: u32,
    pub fresh: u32,
    pub rescued: u32,
    pub price: u32,
}

// An answer of Shorten with its price.
fn billing_with(answer: HalivomueShortening, price: u32) -> HalivomueBilling
    ensures number { result.number ≡ answer.number }
    ensures place { result.place ≡ answer.place }
    ensures length { result.length ≡ answer.length }
    ensures moved { result.moved ≡ answer.moved }
    ensures grown { result.grown ≡ answer.grown }
    ensures fresh { result.fresh ≡ answer.fresh }
    ensures rescued { result.rescued ≡ answer.rescued }
    ensures price { result.price ≡ price }
{
    HalivomueBilling {
        number: answer.number,
        place: answer.place,
        length: answer.length,
        moved: answer.moved,
        grown: answer.grown,
        fresh: answer.fresh,
        rescued: answer.rescued,
        price,
    }
}

// The members that tell a result of Shorten with accounts.
fn billing_of(r: Result<Priced, Refusal>) -> HalivomueBilling
    ensures number { result.number ≡ (told (unpriced r)).number }
    ensures place { result.place ≡ (told (unpriced r)).place }
    ensures length { result.length ≡ (told (unpriced r)).length }
    ensures moved { result.moved ≡ (told (unpriced r)).moved }
    ensures grown { result.grown ≡ (told (unpriced r)).grown }
    ensures fresh { result.fresh ≡ (told (unpriced r)).fresh }
    ensures rescued { result.rescued ≡ (told (unpriced r)).rescued }
    ensures price { result.price ≡ price_in r }
{
    match r {
        Ok(p) => billing_with(answer_of(Ok(p.shortening)), p.price),
        Err(e) => billing_with(answer_of(Err(e)), 0),
    }
}

#[unsafe(no_mangle)]
pub extern "C" fn halivomue_shorten_for(
    accounts: &mut [u32; WORDS],
    bytes: &[u8],
    out: &mut [u8],
) -> HalivomueBilling
    ensures number { result.number ≡ (serve accounts.old (record { bytes = bytes.now; out = out.old })).reply.outcome.answer.number }
    ensures place { result.place ≡ (serve accounts.old (record { bytes = bytes.now; out = out.old })).reply.outcome.answer.place }
    ensures length { result.length ≡ (serve accounts.old (record { bytes = bytes.now; out = out.old })).reply.outcome.answer.length }
    ensures moved { result.moved ≡ (serve accounts.old (record { bytes = bytes.now; out = out.old })).reply.outcome.answer.moved }
    ensures grown { result.grown ≡ (serve accounts.old (record { bytes = bytes.now; out = out.old })).reply.outcome.answer.grown }
    ensures fresh { result.fresh ≡ (serve accounts.old (record { bytes = bytes.now; out = out.old })).reply.outcome.answer.fresh }
    ensures rescued { result.rescued ≡ (serve accounts.old (record { bytes = bytes.now; out = out.old })).reply.outcome.answer.rescued }
    ensures price { result.price ≡ (serve accounts.old (record { bytes = bytes.now; out = out.old })).reply.price }
    ensures accounts { accounts.new ≡ (serve accounts.old (record { bytes = bytes.now; out = out.old })).accounts }
    ensures output { out.new ≡ (serve accounts.old (record { bytes = bytes.now; out = out.old })).reply.outcome.output }
    ensures accepted { result.number ≡ 0 → reading (take result.length out.new) ≡ answer 0 0 }
    ensures room { 61728 ≤ length out.old → result.number ≡ 9 → ⊥ }
    ensures unmoved { result.number ≡ 0 → result.moved ≡ 0
        → out.new ≡ bytes.now ++ drop (length bytes.now) out.old }
    ensures bound { result.number ≡ 0 → instructions (take result.length out.new)
        ≤ instructions bytes.now + instructions bytes.now / 2 + 36 }
    ensures demand3 { result.number ≡ 0 → Tidy (held bytes.now)
        → Demand3Where (held bytes.now) (sliced_form (held bytes.now)) (held (take result.length out.new)) result.rescued }
    ensures unsliced { result.number ≡ 0 → Tidy (held bytes.now) → some_test (sliced_form (held bytes.now)).tests ≡ false
        → Demand3 (held bytes.now) (held (take result.length out.new)) result.rescued }
{
    billing_of(accounts::shorten_for(accounts, bytes, out))
}

// struct halivomue_billed_provisioning of include/halivomue.h: `place` is its member `record`.
#[repr(C)]
#[derive(Clone, Copy)]
pub struct HalivomueBilledProvisioning {
    pub number: u32,
    pub place: u32,
    pub tidy: u32,
    pub reg: u32,
    pub length: usize,
    pub moved: u32,
    pub grown: u32,
    pub fresh: u32,
    pub rescued: u32,
    pub price: u32,
}

#[unsafe(no_mangle)]
pub extern "C" fn halivomue_provision_for(
    accounts: &mut [u32; WORDS],
    bytes: &[u8],
    out: &mut [u8],
) -> HalivomueBilledProvisioning
    ensures number { result.number ≡ (serve accounts.old (record { bytes = bytes.now; out = out.old })).reply.outcome.answer.number }
    ensures place { result.place ≡ (serve accounts.old (record { bytes = bytes.now; out = out.old })).reply.outcome.answer.place }
    ensures tidy { result.tidy ≡ (tidiness bytes.now).tidy }
    ensures reg { result.reg ≡ (tidiness bytes.now).reg }
    ensures length { result.length ≡ (serve accounts.old (record { bytes = bytes.now; out = out.old })).reply.outcome.answer.length }
    ensures moved { result.moved ≡ (serve accounts.old (record { bytes = bytes.now; out = out.old })).reply.outcome.answer.moved }
    ensures grown { result.grown ≡ (serve accounts.old (record { bytes = bytes.now; out = out.old })).reply.outcome.answer.grown }
    ensures fresh { result.fresh ≡ (serve accounts.old (record { bytes = bytes.now; out = out.old })).reply.outcome.answer.fresh }
    ensures rescued { result.rescued ≡ (serve accounts.old (record { bytes = bytes.now; out = out.old })).reply.outcome.answer.rescued }
    ensures price { result.price ≡ (serve accounts.old (record { bytes = bytes.now; out = out.old })).reply.price }
    ensures accounts { accounts.new ≡ (serve accounts.old (record { bytes = bytes.now; out = out.old })).accounts }
    ensures output { out.new ≡ (serve accounts.old (record { bytes = bytes.now; out = out.old })).reply.outcome.output }
    ensures accepted { result.number ≡ 0 → reading (take result.length out.new) ≡ answer 0 0 }
    ensures room { 61728 ≤ length out.old → result.number ≡ 9 → ⊥ }
    ensures unmoved { result.number ≡ 0 → result.moved ≡ 0
        → out.new ≡ bytes.now ++ drop (length bytes.now) out.old }
    ensures bound { result.number ≡ 0 → instructions (take result.length out.new)
        ≤ instructions bytes.now + instructions bytes.now / 2 + 36 }
    ensures demand3 { result.number ≡ 0 → Tidy (held bytes.now)
        → Demand3Where (held bytes.now) (sliced_form (held bytes.now)) (held (take result.length out.new)) result.rescued }
    ensures unsliced { result.number ≡ 0 → Tidy (held bytes.now) → some_test (sliced_form (held bytes.now)).tests ≡ false
        → Demand3 (held bytes.now) (held (take result.length out.new)) result.rescued }
    ensures promised { result.number ≡ 0 → result.tidy ≡ 1
        → Demand3Where (held bytes.now) (sliced_form (held bytes.now)) (held (take result.length out.new)) result.rescued }
{
    let p = accounts::provision_for(accounts, bytes, out);
    let tidy = members(p.tidiness);
    let bill = billing_of(p.priced);
    HalivomueBilledProvisioning {
        number: bill.number,
        place: bill.place,
        tidy: tidy.tidy,
        reg: tidy.reg,
        length: bill.length,
        moved: bill.moved,
        grown: bill.grown,
        fresh: bill.fresh,
        rescued: bill.rescued,
        price: bill.price,
    }
}
