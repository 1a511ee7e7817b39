// The table check: the first of the refusals 1 to 5 that applies. Each is tested on tables that have no lower one: the tests
// for 2 and 5 index freely on laid tables, and those for 3 and 4 on tables that are listed too.
#![tactic(auto)]

mod distances;

ghost use Rattle.std.specs.Prelude.{◌≡◌};
ghost use Rattle.model.specs.Refusal.{number_given};
ghost use Rattle.repository.specs.Checked.{check_of};

use model::Refusal;

// Why the tables are refused, if they are: for any words whatever.
#[tactic(auto, using(crate::proofs::Whole::laid_known, crate::proofs::Whole::lists_known), unfolding(repository::specs::Checked::check_of))]
pub fn check(tables: &[u32]) -> Result<(), Refusal>
    ensures { number_given result ≡ check_of tables.now }
{
    if !check_shape::shape_ok(tables) {
        return Err(Refusal::Shape);
    }
    if !check_listing::listing_ok(tables) {
        return Err(Refusal::Listing);
    }
    if !check_times::times_ok(tables) {
        return Err(Refusal::Times);
    }
    if !check_times::order_ok(tables) {
        return Err(Refusal::Order);
    }
    if !distances::distances_ok(tables) {
        return Err(Refusal::Distances);
    }
    Ok(())
}
