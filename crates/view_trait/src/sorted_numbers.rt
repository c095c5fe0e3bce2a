//! Numbers in a vector, each once, rising.
ghost use Rattle.std.specs.Prelude.{◌≡◌, [], OnOk, OnErr};
ghost use Rattle.std.specs.Ordering.{nat_cmp};
ghost use Rattle.graph_model.specs.Rising.{put_rising, rising, Rises};

use graph_model::Memory;

/// Adds a number, unless it is there. Where memory is wanting, the numbers stay as they are.
pub(crate) fn put_number(numbers: &mut Vec<u32>, n: u32) -> Result<(), Memory>
    requires { Rises nat_cmp numbers.old.items }
    ensures rises { Rises nat_cmp numbers.new.items }
    ensures ok { OnOk result (numbers.new.items ≡ put_rising nat_cmp n numbers.old.items) }
    ensures err { OnErr result (numbers.new.items ≡ numbers.old.items) }
{
    match numbers.binary_search(&n) {
        Ok(_) => Ok(()),
        Err(place) => {
            numbers.insert(place, n)?;
            Ok(())
        }
    }
}

/// Puts the distinct ones of some numbers in place of those that were there. What memory these had
/// serves again; where more is wanting, no number is left.
pub(crate) fn refill_numbers(numbers: &mut Vec<u32>, given: &[u32]) -> Result<(), Memory>
    ensures rises { Rises nat_cmp numbers.new.items }
    ensures ok { OnOk result (numbers.new.items ≡ rising nat_cmp given.now) }
    ensures err { OnErr result (numbers.new.items ≡ []) }
{
    numbers.clear();
    numbers.extend_from_slice(given)?;
    numbers.sort_unstable();
    numbers.dedup();
    Ok(())
}
