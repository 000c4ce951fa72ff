// Lists and ranking: definitions in specs/, their laws in proofs/. In code, the parts of a signed number and the sum under a cap.
#![tactic(auto)]

ghost use Rattle.std.specs.Prelude.{◌≡◌};
ghost use Rattle.lists.specs.Laws.Integer.{up, down};
ghost use Rattle.lists.specs.Parts.{capped};

// What x has above zero.
pub fn above(x: i64) -> u64
    ensures { result ≡ up x }
{
    x.max(0).unsigned_abs()
}

// What x has below zero, of the least number too.
pub fn below(x: i64) -> u64
    ensures { result ≡ down x }
{
    x.min(0).unsigned_abs()
}

// The sum, or the most if it is more.
#[tactic(auto, unfolding(crate::specs::Parts::capped))]
pub fn add_capped(most: u64, x: u64, y: u64) -> u64
    ensures { result ≡ capped most x y }
{
    most.min(x.saturating_add(y))
}
