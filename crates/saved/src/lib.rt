// The file of what a practice holds: writing it into lent output, and reading it. The file has the rows in use alone, so its length follows from the count.
#![tactic(auto)]

ghost use Rattle.std.specs.Prelude.{◌≡◌, ◌*◌, ◌≤◌, length, drop};
ghost use Rattle.std.specs.Int.Count.{ones};
ghost use Rattle.std.proofs.Math.Seq.{paste};
ghost use Rattle.lists.specs.Bytes.{be, same};
ghost use Rattle.hash.specs.Hash.{hash_of};
ghost use Rattle.rules.specs.Numbers.{v1, limit};
ghost use Rattle.rules.specs.Calls.{written};
ghost use Rattle.held.specs.Holding.{rows_of, holds};
ghost use Rattle.file_form.specs.Form.{hld, head as head_of, head_size, in_use, file_size, mark_in, version_in, count_in, rows_in, state_in};
ghost use Rattle.file_form.specs.Calls.{write_call, read_call};
ghost use Rattle.saved.specs.Told.{saved_told, file_told};

use hash::Digest;
use held::Held;
use path::Length;

// What stands before the rows: mark, version, log number, count, digest.
const HEAD: usize = 53;

const LOG: usize = 5;

const COUNT: usize = 13;

const DIGEST: usize = 21;

// Why a file is not written.
#[derive(Clone, Copy, Debug, PartialEq, Eq)]
pub enum SaveError {
    StateBroken,
    OutputShort,
}

// Why a file is not taken.
#[derive(Clone, Copy, Debug, PartialEq, Eq)]
pub enum FileError {
    FileShort,
    MarkWrong,
    VersionWrong,
    CountOver,
    LengthWrong,
    StateBroken,
}

// The bytes of the file of a state with so many elements.
fn file_len(count: Length) -> usize
    ensures { result ≡ file_size count.0 }
{
    HEAD + 32 * count.0.count_ones() as usize
}

// Writes what stands before the rows to the start of out.
fn put_head(h: &Held, out: &mut [u8])
    requires { head_size ≤ length out.old }
    ensures { (out.new ≡ paste out.old 0 (head_of v1 (holds h.now)) head_size) × (length (head_of v1 (holds h.now)) ≡ head_size) }
{
    out[..LOG].copy_from_slice(b"HLD\x00\x01");
    out[LOG..COUNT].copy_from_slice(&h.log.to_be_bytes());
    out[COUNT..DIGEST].copy_from_slice(&h.count.0.to_be_bytes());
    out[DIGEST..HEAD].copy_from_slice(&h.digest.bytes);
}

// Writes those of the rows into out behind the head that are in use in a state with so many elements, the lowest level first.
fn put_rows(rows: &[Digest; held::LEVELS], count: Length, out: &mut [u8])
    requires { (count.0 ≤ limit v1) × (file_size count.0 ≤ length out.old) }
    ensures { (out.new ≡ paste out.old head_size (in_use count.0 (rows_of rows.now)) (32 * ones count.0)) × (length (in_use count.0 (rows_of rows.now)) ≡ 32 * ones count.0) }
{
    let mut bits = count.0;
    let mut at = HEAD;
    for row in rows {
        if bits % 2 == 1 {
            out[at..at + 32].copy_from_slice(&row.bytes);
        }
        at += 32 * (bits % 2) as usize;
        bits /= 2;
    }
}

// Writes the file of a state to the start of out, and gives its bytes. What stands behind it stays, and all of out beside a refusal.
pub fn write(h: Held, out: &mut [u8]) -> Result<u64, SaveError>
    ensures { written (saved_told result) out.new ≡ write_call hash_of v1 (holds h) out.old }
{
    if !held::is_in_order(&h) {
        return Err(SaveError::StateBroken);
    }
    let size = file_len(h.count);
    if out.len() < size {
        return Err(SaveError::OutputShort);
    }
    put_head(&h, out);
    put_rows(&h.rows, h.count, out);
    Ok(size as u64)
}

// Whether a file begins with the mark.
fn is_marked(file: &[u8]) -> bool
    requires { head_size ≤ length file.now }
    ensures { result ≡ same (mark_in file.now) hld }
{
    file.starts_with(b"HLD")
}

// Whether a file has the version that is read here.
fn is_of_version(file: &[u8]) -> bool
    requires { head_size ≤ length file.now }
    ensures { result ≡ same (version_in file.now) (be 2 v1.number) }
{
    file[3..LOG] == [0, 1]
}

// The rows of a state with so many elements: those in use as they stand in its file, the others zero.
fn read_rows(file: &[u8], count: Length) -> [Digest; held::LEVELS]
    requires { length file.now ≡ file_size count.0 }
    ensures { rows_of result ≡ rows_in v1.levels count.0 (drop head_size file.now) }
{
    let mut rows = [held::FREE; held::LEVELS];
    let mut q = count.0;
    let mut at = HEAD;
    for row in &mut rows {
        if q % 2 == 1 {
            row.bytes = lists::row_at(file, at);
            at += 32;
        }
        q /= 2;
    }
    rows
}

// The state that stands in a file of the right length, in order or not.
#[tactic(auto, unfolding(file_form::specs::Form::state_in))]
fn held_in(file: &[u8]) -> Held
    requires { length file.now ≡ file_size (count_in file.now) }
    ensures { holds result ≡ state_in v1 file.now }
{
    let count = Length(lists::number_at(file, COUNT));
    Held {
        log: lists::number_at(file, LOG),
        count,
        digest: Digest {
            bytes: lists::row_at(file, DIGEST),
        },
        rows: read_rows(file, count),
    }
}

// The state that a file gives.
pub fn read(file: &[u8]) -> Result<Held, FileError>
    ensures { file_told result ≡ read_call hash_of v1 file.now }
{
    if file.len() < HEAD {
        return Err(FileError::FileShort);
    }
    if !is_marked(file) {
        return Err(FileError::MarkWrong);
    }
    if !is_of_version(file) {
        return Err(FileError::VersionWrong);
    }
    let count = Length(lists::number_at(file, COUNT));
    if path::LIMIT < count.0 {
        return Err(FileError::CountOver);
    }
    if file.len() != file_len(count) {
        return Err(FileError::LengthWrong);
    }
    let state = held_in(file);
    if !held::is_in_order(&state) {
        return Err(FileError::StateBroken);
    }
    Ok(state)
}
