// What an export gives back: the number, the numbers of `answer`, and a lent digest.
ghost use Rattle.std.specs.Prelude.{◌≡◌, IfErr, IfOk, OnOk};
ghost use Rattle.numbers.specs.Saying.{answer_of};
ghost use Rattle.numbers.specs.declared.Said.{Said};
ghost use Rattle.lotlog.specs.Exports.{told, answered, left};

use hash::Digest;
use numbers::Said;

// Writes the answer; gives the number to return.
pub fn tell<A: Into<Said>>(a: A, answer: &mut [u64; 3]) -> u64
    ensures { (s : Said) × A.converts a s × (told result answer.new ≡ answered (answer_of s)) }
{
    let said: Said = a.into();
    *answer = [said.value, said.element, said.level];
    said.number
}

// The number to return for a refusal.
pub fn number_of<E: Into<Said>>(refusal: E) -> u64
    ensures { (s : Said) × E.converts refusal s × (result ≡ s.number) }
{
    let said: Said = refusal.into();
    said.number
}

// The number to return where a good answer has no number.
pub fn number<E: Into<Said>>(r: Result<(), E>) -> u64
    ensures ok { OnOk r (result ≡ 0) }
    ensures err { IfErr r (λ e. (s : Said) × E.converts e s × (result ≡ s.number)) }
{
    let said: Said = r.into();
    said.number
}

// Writes a digest unless there is a refusal; gives the number to return.
pub fn leave<E: Into<Said>>(r: Result<Digest, E>, lent: &mut [u8; 32]) -> u64
    ensures ok { IfOk r (λ d. left result lent.new ≡ left 0 d.bytes) }
    ensures err { IfErr r (λ e. (s : Said) × E.converts e s × (left result lent.new ≡ left s.number lent.old)) }
{
    match r {
        Ok(digest) => {
            let bytes = digest.bytes;
            *lent = bytes;
            0
        }
        Err(e) => number_of(e),
    }
}
