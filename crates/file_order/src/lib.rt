// An order on tree files: contexts, then nodes in turn, number by number; a file that ends earlier comes first.
#![tactic(auto)]

ghost use Rattle.std.specs.Prelude.{◌≡◌, false};
ghost use Rattle.tree.specs.Replies.{replied};
ghost use Rattle.file_loader.specs.Several.{is_broken, values_in};
ghost use Rattle.file_order.specs.Orders.{key_of, checks_of, in_order, compared};
ghost use Rattle.file_order.specs.Heads.{run};

use file_loader::Header;
use file_numbers::number_at;
use std::cmp::Ordering;
use tree::refusal::Refusal;
use tree::sizes;

// ---- one file

// The first refusal that applies to a file: the loader's checks, for a table that all counts fit.
#[tactic(auto, unfolding(crate::specs::Orders::checks_of))]
fn check(file: &[u8]) -> Result<(), Refusal>
    ensures { result ≡ replied (checks_of file.now) tt }
{
    file_loader::check(file, sizes::NODE_CELLS * (sizes::MOST_NODES as usize))
}

// ---- two files

// So many numbers of one file from a place on beside so many of another: both are read in step, up to the first that differ.
fn compare_numbers(
    first: &[u8],
    one: usize,
    many: usize,
    second: &[u8],
    two: usize,
    others: usize,
) -> Ordering
    requires { (is_broken (run first.now one many) ≡ false) × (is_broken (run second.now two others) ≡ false) }
    ensures { result ≡ in_order (values_in (run first.now one many)) (values_in (run second.now two others)) }
{
    let mut at = one;
    let mut beside = two;
    for done in 0..many {
        if others <= done {
            return Ordering::Greater;
        }
        let Some((left, next)) = number_at(first, at) else {
            return Ordering::Equal;
        };
        let Some((right, after)) = number_at(second, beside) else {
            return Ordering::Equal;
        };
        if left < right {
            return Ordering::Less;
        }
        if right < left {
            return Ordering::Greater;
        }
        at = next;
        beside = after;
    }
    if many < others {
        return Ordering::Less;
    }
    Ordering::Equal
}

// Two accepted files.
fn compare_accepted(first: &[u8], second: &[u8]) -> Ordering
    requires { (checks_of first.now ≡ 0) × (checks_of second.now ≡ 0) }
    ensures { result ≡ in_order (key_of first.now) (key_of second.now) }
{
    let Some(one) = Header::read(first) else {
        return Ordering::Equal;
    };
    let Some(two) = Header::read(second) else {
        return Ordering::Equal;
    };
    if one.context < two.context {
        return Ordering::Less;
    }
    if two.context < one.context {
        return Ordering::Greater;
    }
    let many = sizes::NODE_CELLS * usize::from(one.count);
    let others = sizes::NODE_CELLS * usize::from(two.count);
    compare_numbers(first, one.body, many, second, two.body, others)
}

// How the first file stands to the second, or the first refusal that applies: all of the first file's come before the second's.
pub fn compare(first: &[u8], second: &[u8]) -> Result<Ordering, Refusal>
    ensures { result ≡ compared first.now second.now }
{
    check(first)?;
    check(second)?;
    Ok(compare_accepted(first, second))
}
