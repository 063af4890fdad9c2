//! The reader of a board text.
ghost use Rattle.std.specs.Prelude.{◌≡◌, ◌<◌, ◌≤◌, List, length, Decides, MatchResult};
ghost use Rattle.text.specs.Boards.{Begins, setting, Told, Complete, OneList, OneOutcome};
ghost use Rattle.text.specs.Joins.{handed, Grows};
ghost use Rattle.text.specs.Passing.{AfterHeader, Headless};
ghost use Rattle.text.specs.Pieces.{NamedIn};

use crate::lines::Lines;
use crate::takers::{Headed, JobRefusal, Join, Taker};
use crate::tokens::read_join;
use faults::{Fault, JoinFault, LineFault, Place, SizeFault};

/// The most bytes of a text that is read.
pub const LIMIT: usize = 60_000;

/// Refuses a text that is too long.
fn measure(text: &[u8]) -> Result<(), SizeFault>
    ensures { MatchResult result (λ _. length text.now ≤ 60000) (λ _. 60000 < length text.now) }
{
    if text.len() > LIMIT {
        return Err(SizeFault::TooLong);
    }
    Ok(())
}

/// The lines after the header.
fn after_header<K: Headed>(text: &[u8]) -> Result<Lines<'_>, LineFault>
    ensures { MatchResult result (AfterHeader K.header text.now) (Headless K.header text.now) }
{
    let mut lines = Lines::of(text);
    let first = lines.pass()?;
    if first.bytes != K::header() {
        return Err(LineFault::Misformed(first.place()));
    }
    Ok(lines)
}

/// Whether the first line of a text is the header of these keys.
#[tactic(auto, using(crate::proofs::Reading::header_decided, crate::proofs::Cuts::lacks_by))]
pub fn begins<K: Headed>(text: &[u8]) -> bool
    ensures { Decides result (Begins K.header text.now) }
{
    after_header::<K>(text).is_ok()
}

/// Hands a join on; a refusal is given its place.
fn hand_on<T: Taker>(taker: &mut T, join: Join<T::Key>, place: Place) -> Result<(), JoinFault>
    ensures answers { (js : List (Join T.Key)) → T.taken taker.old js → result ≡ handed T.Refusal.numbered place (T.rule js join) }
    ensures grows { Grows (T.taken taker.old) (T.taken taker.new) join result }
{
    taker.take(join).map_err(|refusal| JoinFault {
        number: refusal.number(),
        place,
    })
}

/// The lines of a text one after the other, up to its end or the first fault.
fn read_through<T: Taker>(text: &[u8], taker: &mut T) -> Result<usize, Fault>
    ensures { Told (setting T.Key.spelled T.Key.header T.rule T.Refusal.numbered) (T.taken taker.old) (T.taken taker.new) text.now result }
{
    measure(text)?;
    let mut lines = after_header::<T::Key>(text)?;
    while let Some(line) = lines.next()? {
        let join = read_join(&line)?;
        hand_on(taker, join, line.place())?;
    }
    Ok(lines.passed - 1) // the header is no join
}

/// Reads a text and hands on its joins one after the other, up to the first fault; answers how many joins it has.
// the setting stands in three clauses: one fact for all five would name no theorem here, and a definition over the taker
// does not reach the members of its key
pub fn read<T: Taker>(text: &[u8], taker: &mut T) -> Result<usize, Fault>
    ensures told { Told (setting T.Key.spelled T.Key.header T.rule T.Refusal.numbered) (T.taken taker.old) (T.taken taker.new) text.now result }
    ensures one { OneOutcome (setting T.Key.spelled T.Key.header T.rule T.Refusal.numbered) text.now }
    ensures complete { Complete (setting T.Key.spelled T.Key.header T.rule T.Refusal.numbered) (T.taken taker.old) (T.taken taker.new) text.now result }
    ensures unique { OneList T.Key.spelled T.Key.header text.now }
    ensures named { NamedIn T.Key.spelled (T.taken taker.old) text.now result }
{
    read_through(text, taker)
}
