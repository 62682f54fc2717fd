ghost use Rattle.std.specs.Prelude.{◌≡◌, ◌<◌, ◌+◌, ◌^◌, ◌≤◌, IfSome, length};
ghost use Rattle.txs_lexer.specs.Scan.{before_end, ended_by};

use crate::LexFault;
use crate::byte::begins_with;
use crate::front::Front;

/// How many bytes stand before the first `-}`.
fn before_end(bytes: &[u8]) -> Option<usize>
    ensures number { result ≡ before_end bytes.now }
    ensures within { IfSome result (λ n. n < length bytes.now) }
{
    let mut len = 0;
    let mut rest = bytes;
    while let [first, others @ ..] = rest {
        if *first == b'-' && begins_with(b'}', others) {
            return Some(len);
        }
        len += 1;
        rest = others;
    }
    None
}

/// The comment that begins at `at` with `{-`, behind which these bytes stand.
pub fn block_comment(at: usize, behind: &[u8]) -> Result<Front, LexFault>
    requires { length behind.now + 4 < 2 ^ 64 }
    ensures { result ≡ ended_by at (before_end behind.now) }
{
    match before_end(behind) {
        Some(n) => Ok(Front::Gap(n + 4)),
        None => Err(LexFault::OpenComment { at }),
    }
}
