ghost use Rattle.std.specs.Prelude.{◌≡◌, ◌≤◌};
ghost use Rattle.protocol.specs.Paths.{prior, depth, bound};

use crate::records::Message;

// The message before `m` on its path: its precedent where that is a lower number, else none.
pub fn prior(messages: &[Message], m: u32) -> Option<u32>
    ensures { result ≡ prior messages.now m }
{
    messages.get(m as usize)?.precedent.filter(|p| *p < m)
}

// The length of the path that ends in `end`.
#[tactic(auto, using(crate::proofs::PathLaws::prior_falls, crate::proofs::PathLaws::depth_none, crate::proofs::PathLaws::depth_some))]
pub fn depth(messages: &[Message], end: Option<u32>) -> usize
    ensures value { result ≡ depth messages.now end }
    ensures within { result ≤ bound end }
{
    match end {
        None => 0,
        Some(m) => depth(messages, prior(messages, m)) + 1,
    }
}
