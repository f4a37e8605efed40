// Cases with the answers of an independent implementation, which the definitions are held to: specs/ has the cases,
// proofs/Agreement shows that the definitions give the same answers.

#![tactic(auto)]

ghost use Rattle.std.specs.Prelude.{◌≡◌, length};
ghost use Rattle.test_definitions.specs.All.{cases};

// How many cases there are.
pub fn count() -> u64
    ensures { result ≡ length cases }
{
    1353
}
