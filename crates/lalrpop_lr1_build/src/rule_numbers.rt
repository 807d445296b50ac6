//! On whose right side a place is.

ghost use Rattle.std.specs.Prelude.{◌≡◌, IfOk};
ghost use Rattle.lalrpop_lr1_build.specs.PublicStates.{TellsRules, ending_number};

use lalrpop_lr1_first::Place;
use std::alloc::{AllocError, Global};

/// The number of the production that ends at the place, or else the given one.
fn ending(place: &Place, number: usize) -> usize
    ensures { result ≡ ending_number place.now number }
{
    match *place {
        Place::End(own) => own,
        Place::Symbol(_) => number,
    }
}

/// For each place the number of the production on whose right side it is.
pub(crate) fn rule_numbers(alloc: Global, places: &[Place]) -> Result<Vec<usize>, AllocError>
    ensures { IfOk result (λ numbers. TellsRules places.now numbers.items) }
{
    let mut numbers = vec![in alloc; 0; places.len()]?;
    let mut number = 0;
    let mut place = places.len();
    while place > 0 {
        place -= 1;
        number = ending(&places[place], number);
        numbers[place] = number;
    }
    Ok(numbers)
}
