//! What a board text holds, in three lines.
ghost use Rattle.std.specs.Prelude.{◌≡◌, ◌≤◌, List, length, Some, Ok, codes, decimal};
ghost use Rattle.keys.specs.declared.name.NameKey.{NameKey};
ghost use Rattle.keys.specs.declared.number.NumberKey.{NumberKey};
ghost use Rattle.text.specs.Boards.{Written};
ghost use Rattle.text.specs.declared.takers.Join.{Join};
ghost use Rattle.survey.specs.Summaries.{Summed, Summarized, OneSummary, NamedAs, summary, kind_word, summary_text};
ghost use Rattle.survey.specs.declared.summary.Kind.TheVariants.{Names, Numbers};

use crate::census::Census;
use faults::Fault;
use keys::Spelled;
use keys::name::NameKey;
use keys::number::NumberKey;
use std::fmt;
use text::reader::{begins, read};
use text::takers::Headed;

/// Which keys a board has.
#[derive(Clone, Copy, PartialEq, Eq, Debug)]
pub enum Kind {
    Names,
    Numbers,
}

/// The kind of a board's keys, the number of its joins, and the sum of their weights' sizes.
#[derive(Clone, Copy, PartialEq, Eq, Debug)]
pub struct Summary {
    pub kind: Kind,
    pub joins: u64,
    pub sizes: u64,
}

/// The summary of a text that is read as a board of these keys.
fn summed<K: Spelled + Headed>(text: &[u8], kind: Kind) -> Result<Summary, Fault>
    ensures { Summed K.spelled K.header kind text.now result }
{
    let mut census = Census::<K>::new();
    read(text, &mut census)?;
    Ok(Summary {
        kind,
        joins: census.joins,
        sizes: census.sizes,
    })
}

/// The summary of a board text, or its first fault.
pub fn summarize(text: &[u8]) -> Result<Summary, Fault>
    ensures told { Summarized text.now result }
    ensures one { OneSummary text.now }
    ensures names { (js : List (Join NameKey)) → length text.now ≤ 60000 → Written (λ k. k.text) (codes "board names") js text.now → result ≡ Ok (summary Names js) }
    ensures numbers { (js : List (Join NumberKey)) → length text.now ≤ 60000 → Written (λ k. decimal k.value) (codes "board numbers") js text.now → result ≡ Ok (summary Numbers js) }
    ensures named { NamedAs text.now result }
{
    if begins::<NumberKey>(text) {
        return summed::<NumberKey>(text, Kind::Numbers);
    }
    summed::<NameKey>(text, Kind::Names)
}

impl fmt::Display for Kind {
    ghost output = { λ k. Some (kind_word k) };

    fn fmt<W: fmt::Write>(&self, f: &mut fmt::Formatter<W>) -> fmt::Result {
        match self {
            Kind::Names => write!(f, "names"),
            Kind::Numbers => write!(f, "numbers"),
        }
    }
}

impl fmt::Display for Summary {
    ghost output = { λ s. Some (summary_text s) };

    fn fmt<W: fmt::Write>(&self, f: &mut fmt::Formatter<W>) -> fmt::Result {
        let kind = self.kind;
        let joins = self.joins;
        let sizes = self.sizes;
        write!(f, "board {kind}\njoins {joins}\nsizes {sizes}")
    }
}
