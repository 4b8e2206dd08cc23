ghost use Rattle.std.specs.Prelude.{◌≡◌, IfOk, Some, option_map};
ghost use Rattle.hub_text.specs.EndList.{Adds, ends_listed, ends_text};

use crate::words::number_of;
use hub_envelope::{EndId, Items, OutOfMemory};
use std::alloc::Global;
use std::fmt;

/// The list of ends that a word writes in the text formats: `-`, or numbers joined by single
/// commas, none above `max`. It may have any length, and an end may stand in it twice. `None` where
/// the word writes none.
///
/// ```rust
/// let ends = read_ends(alloc, "7,0,12", 65_535)?;
/// ```
#[tactic(auto, unfolding(crate::specs::EndList::ends_listed))]
pub fn read_ends(alloc: Global, word: &str, max: u32) -> Result<Option<Items<EndId>>, OutOfMemory>
    ensures { IfOk result (λ ends. option_map (λ x. x) ends ≡ ends_listed max word.now) }
{
    let mut ends = Items::none(alloc);
    if word == "-" {
        return Ok(Some(ends));
    }
    for number in word.split(',') {
        if !read_and_add_end(&mut ends, number, max)? {
            return Ok(None);
        }
    }
    Ok(Some(ends))
}

/// Adds the end that the word names. False where it names none.
fn read_and_add_end(ends: &mut Items<EndId>, word: &str, max: u32) -> Result<bool, OutOfMemory>
    ensures { IfOk result (λ added. Adds max ends.old word.now added ends.new) }
{
    let Some(number) = number_of(word, u64::from(max)) else {
        return Ok(false);
    };
    ends.push(EndId(number as u32))?;
    Ok(true)
}

/// The text of a list of ends: `-`, or their numbers joined by single commas.
#[derive(Clone, Copy)]
pub struct EndListText<'a>(pub &'a [EndId]);

impl<'a> fmt::Display for EndListText<'a> {
    ghost output = { λ list. Some (ends_text list.0.now) };

    fn fmt<W: fmt::Write>(&self, f: &mut fmt::Formatter<W>) -> fmt::Result {
        let Some((first, others)) = self.0.split_first() else {
            return f.write_str("-");
        };
        let first = first.0;
        write!(f, "{first}")?;
        for other in others {
            let other = other.0;
            write!(f, ",{other}")?;
        }
        Ok(())
    }
}
