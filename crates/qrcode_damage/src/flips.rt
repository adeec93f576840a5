//! Chooses which codewords or bits are wrong.

ghost use Rattle.std.specs.Prelude.{◌≡◌, ◌%◌, ◌≤◌, ◌==◌, not, vec_len, IsTrue, IfOk};
ghost use Rattle.qrcode_damage.specs.Flips.{count_wrong, AreHigh};

use crate::random::Random;
use std::alloc::{AllocError, Global};

/// Returns a byte that is zero unless it stands for something wrong. It is a multiple of 16 if only
/// its high half counts.
pub(crate) fn flip(random: &mut Random, is_wrong: bool, is_half: bool) -> u8
    ensures wrong { not (result == 0) ≡ is_wrong }
    ensures half { IsTrue is_half → result % 16 ≡ 0 }
{
    if !is_wrong {
        0
    } else if is_half {
        16 * (1 + random.below(15)) as u8
    } else {
        1 + random.below(255) as u8
    }
}

/// Returns `length` bytes of which exactly `count` are not zero, at places chosen by `random`, each
/// a multiple of 16 if only high halves count.
///
/// Errors: only `AllocError`.
#[tactic(auto, using(crate::proofs::Places::high_more, crate::proofs::Places::flip_more))]
pub(crate) fn flips(
    alloc: Global,
    random: &mut Random,
    count: usize,
    length: usize,
    is_half: bool,
) -> Result<Vec<u8>, AllocError>
    requires { count ≤ length }
    ensures length { IfOk result (λ bytes. vec_len bytes ≡ length) }
    ensures count { IfOk result (λ bytes. count_wrong bytes.items ≡ count) }
    ensures half { IsTrue is_half → IfOk result (λ bytes. AreHigh bytes.items) }
{
    let mut left = count;
    let mut bytes = Vec::new(alloc);
    for i in 0..length {
        let place = random.below(length - i);
        let is_wrong = place < left;
        bytes.push(flip(random, is_wrong, is_half))?;
        left -= usize::from(is_wrong);
    }
    Ok(bytes)
}
