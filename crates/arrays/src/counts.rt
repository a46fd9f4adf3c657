// Counts by place and resource: sixteen stand for each place, for the resources 1 to 16, in one list, which `count_of` and its laws read.
ghost use Rattle.std.specs.Prelude.{◌≡◌};
ghost use Rattle.arrays.specs.View.{count_of};

use crate::Place;

// The count of the task at a place for a resource: 0 for a resource that is none of 1 to 16.
pub fn count_at(counts: &[u8; 512], place: Place, resource: u8) -> u8
    ensures { result ≡ count_of counts.now place resource }
{
    match resource {
        1..=16 => counts[place.index() * 16 + usize::from(resource) - 1],
        _ => 0,
    }
}
