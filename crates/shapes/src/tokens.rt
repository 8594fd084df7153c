// 18: "token list not triples of 32-bit words, a kind over 65,535, or over 4,096 tokens; place 0".
// Of the list's bytes alone: it asks nothing, and stops at the first kind that is too large.
ghost use Rattle.std.specs.Prelude.{◌≡◌};
ghost use Rattle.rules.specs.Check.{ok18};

use tables::scans::all_below;
use words::Word;

#[tactic(auto, unfolding(rules::specs::Check::ok18))]
pub fn tokens_fit(tokens: &[u8]) -> bool
    ensures { result ≡ ok18 tokens.now }
{
    let n = tokens.len() / 12;
    tokens.len() % 12 == 0 && n <= 4096 && all_below(n, |i| u32::word(tokens, 12 * i) <= 65535)
}
