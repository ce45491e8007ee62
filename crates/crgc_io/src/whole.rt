//! Reading to the end, and writing all.
ghost use Rattle.std.specs.Prelude.{◌≡◌, ℕ, ◌+◌, ◌<◌, ◌≤◌, ◌++◌, List, Option, length, take, IfOk, IfErr, OnOk, Ok, true, vec_len};
ghost use Rattle.std.specs.Io.KnownBytes.{IsAtEnd};
ghost use Rattle.crgc_io.specs.Fault.{CountRose};
ghost use Rattle.crgc_io.specs.Taken.{HasCounted, IsCountAt, Puts, Takes};

use crate::traits::{Failed, Sink, Source};
use std::alloc::Global;

/// How many bytes one read or write is asked to move at most.
const PIECE: usize = 65_536;

/// Why reading to the end stopped before the end.
#[derive(Clone, Copy, PartialEq, Eq, Debug)]
pub enum ReadAll {
    /// A read failed.
    ReadFault,
    /// More bytes came than the limit allows.
    TooLong,
    /// The allocator gave no memory; some bytes may have been read.
    NoMemory,
}

/// A write failed. So many bytes, from the front, were written before.
#[derive(Clone, Copy, PartialEq, Eq, Debug)]
pub struct WriteFault {
    pub written: u64,
}

/// All bytes up to the end of the source. It reads in pieces of 64 KiB, and takes at most
/// `limit + 1` bytes, whatever the source gives. Linear time.
pub fn read_all<S: Source>(alloc: Global, source: &mut S, limit: usize) -> Result<Vec<u8>, ReadAll>
    requires { limit < usize.MAX }
    ensures ok { IfOk result (λ v. Takes S.left S.given source.old source.new v.items) }
    ensures end { IfOk result (λ _. IsAtEnd (S.left source.new) × (S.ended source.new ≡ true)) }
    ensures within { IfOk result (λ v. vec_len v ≤ limit) }
    ensures err { IfErr result (λ e. (bs : List ℕ)
        × Takes S.left S.given source.old source.new bs × IsCountAt e limit (length bs)) }
    ensures stands { OnOk result (S.faults source.new ≡ S.faults source.old) }
    ensures counted { IfErr result (λ e. HasCounted e (S.faults source.old) (S.faults source.new)) }
    ensures never_falls { S.faults source.old ≤ S.faults source.new }
{
    match vec![in alloc; 0; PIECE] {
        Ok(mut piece) => read_through(alloc, source, limit, piece.as_mut_slice()),
        Err(_) => Err(ReadAll::NoMemory),
    }
}

// `read_all`, by reads into `piece`.
fn read_through<S: Source>(
    alloc: Global,
    source: &mut S,
    limit: usize,
    piece: &mut [u8],
) -> Result<Vec<u8>, ReadAll>
    requires limit { limit < usize.MAX }
    requires room { 0 < length piece.old }
    ensures ok { IfOk result (λ v. Takes S.left S.given source.old source.new v.items) }
    ensures end { IfOk result (λ _. IsAtEnd (S.left source.new) × (S.ended source.new ≡ true)) }
    ensures within { IfOk result (λ v. vec_len v ≤ limit) }
    ensures err { IfErr result (λ e. (bs : List ℕ)
        × Takes S.left S.given source.old source.new bs × IsCountAt e limit (length bs)) }
    ensures stands { OnOk result (S.faults source.new ≡ S.faults source.old) }
    ensures counted { IfErr result (λ e. HasCounted e (S.faults source.old) (S.faults source.new)) }
    ensures never_falls { S.faults source.old ≤ S.faults source.new }
{
    let mut bytes = Vec::new(alloc);
    while bytes.len() <= limit {
        match read_piece(source, &mut bytes, limit, piece) {
            Ok(0) => return Ok(bytes),
            Ok(_) => {}
            Err(why) => return Err(why),
        }
    }
    Err(ReadAll::TooLong)
}

// Appends what one read gives, and answers how many bytes that is: 0 only at the end.
fn read_piece<S: Source>(
    source: &mut S,
    bytes: &mut Vec<u8>,
    limit: usize,
    piece: &mut [u8],
) -> Result<usize, ReadAll>
    requires limit { limit < usize.MAX }
    requires within { vec_len bytes.old ≤ limit }
    requires room { 0 < length piece.old }
    ensures ok { IfOk result (λ n. (bs : List ℕ)
        × Takes S.left S.given source.old source.new bs
        × (bytes.new.items ≡ bytes.old.items ++ bs)
        × (length bs ≡ n)
        × (vec_len bytes.new ≤ limit + 1)) }
    ensures end { result ≡ Ok 0 → IsAtEnd (S.left source.new) × (S.ended source.new ≡ true) }
    ensures err { IfErr result (λ e. (bs : List ℕ)
        × Takes S.left S.given source.old source.new bs
        × IsCountAt e limit (vec_len bytes.old + length bs)) }
    ensures stands { OnOk result (S.faults source.new ≡ S.faults source.old) }
    ensures counted { IfErr result (λ e. HasCounted e (S.faults source.old) (S.faults source.new)) }
    ensures never_falls { S.faults source.old ≤ S.faults source.new }
{
    let room = piece.len().min(limit - bytes.len() + 1);
    let n = match source.read(&mut piece[..room]) {
        Ok(n) => n,
        Err(Failed) => return Err(ReadAll::ReadFault),
    };
    match bytes.extend_from_slice(&piece[..n]) {
        Ok(()) => Ok(n),
        Err(_) => Err(ReadAll::NoMemory),
    }
}

/// Writes all bytes, in pieces of 64 KiB. Linear time.
pub fn write_all<K: Sink>(sink: &mut K, bytes: &[u8]) -> Result<(), WriteFault>
    ensures ok { OnOk result (Puts K.held K.taken sink.old sink.new bytes.now) }
    ensures err { IfErr result (λ e. Puts K.held K.taken sink.old sink.new (take e.written bytes.now)) }
    ensures before_end { IfErr result (λ e. e.written < length bytes.now) }
    ensures stands { OnOk result (K.faults sink.new ≡ K.faults sink.old) }
    ensures fault { IfErr result (λ _. CountRose (K.faults sink.old) (K.faults sink.new)) }
    ensures never_falls { K.faults sink.old ≤ K.faults sink.new }
{
    let mut written = 0;
    while written < bytes.len() {
        let end = written + (bytes.len() - written).min(PIECE);
        match sink.write(&bytes[written..end]) {
            Ok(n) => written += n,
            Err(Failed) => {
                return Err(WriteFault {
                    written: written as u64,
                });
            }
        }
    }
    Ok(())
}
