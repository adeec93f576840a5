//! Packs bits into bytes as they are appended.

ghost use Rattle.std.specs.Prelude.{◌≡◌, ℕ, false, ◌+◌, ◌-◌, ◌*◌, ◌<◌, ◌≤◌, ◌^◌, [], ◌++◌, length, replicate, vec_len, vec_capacity, IfOk, OnOk};
ghost use Rattle.qrcode_types.specs.Bits.{number_bits, bits_of};

use std::alloc::{AllocError, Global};
use std::marker::Model;

// Bits: `bytes`, and then the fewer than eight bits of `rest`. The first allocation is for at least
// `first_room` bytes.
#[derive(Drop)]
pub(super) struct Stream {
    bytes: Vec<u8>,
    rest: u64,
    rest_len: u32,
    first_room: usize,
}

impl Model for Stream {
    ghost use Rattle.std.specs.Prelude.{◌+◌, ◌-◌, ◌*◌, ◌<◌, ◌≤◌, ◌^◌, ◌++◌, vec_len, vec_capacity};
    ghost use Rattle.qrcode_types.specs.Bits.{number_bits, bits_of};
    ghost use Rattle.qrcode_bits.specs.StreamView.{StreamView};

    ghost Value = { StreamView };

    ghost view = { λ s. record {
      bits = bits_of s.bytes.items ++ number_bits s.rest_len s.rest;
      room = 8 * vec_capacity s.bytes - (8 * vec_len s.bytes + s.rest_len);
    } };

    ghost invariant = { λ s. (s.rest_len < 8) × (s.rest < 2 ^ s.rest_len)
        × (8 * vec_len s.bytes + s.rest_len ≤ 8 * vec_capacity s.bytes) };
}

impl Stream {
    // Creates an empty stream, which allocates nothing yet.
    pub(super) fn new(alloc: Global, first_room: usize) -> Stream
        ensures { result.bits ≡ [] }
    {
        Stream {
            bytes: Vec::new(alloc),
            rest: 0,
            rest_len: 0,
            first_room,
        }
    }

    pub(super) fn allocator(&self) -> Global {
        *self.bytes.allocator()
    }

    // Copies the bits.
    pub(super) fn copied(&self) -> Result<Stream, AllocError>
        ensures { IfOk result (λ copy. copy.bits ≡ self.now.bits) }
    {
        let mut bytes = Vec::with_capacity(self.allocator(), self.bytes.len() + 1)?;
        bytes.extend_from_slice(&self.bytes)?;
        Ok(Stream {
            bytes,
            rest: self.rest,
            rest_len: self.rest_len,
            first_room: self.first_room,
        })
    }

    // Returns the number of bits.
    pub(super) fn len(&self) -> usize
        requires { length self.now.bits < 2 ^ 60 }
        ensures { result ≡ length self.now.bits }
    {
        self.bytes.len() * 8 + self.rest_len as usize
    }

    // Makes room for `count` more bits.
    pub(super) fn reserve(&mut self, count: usize) -> Result<(), AllocError>
        requires { count < 2 ^ 60 }
        ensures bits { self.new.bits ≡ self.old.bits }
        ensures room { OnOk result (count ≤ self.new.room) }
    {
        let wanted = (self.rest_len as usize + count + 7) / 8;
        if self.bytes.capacity() == 0 {
            return self.bytes.reserve(wanted.max(self.first_room));
        }
        self.bytes.reserve(wanted)
    }

    // Appends the `count` bits of a number, the highest first.
    #[inline(always)]
    pub(super) fn push_number(&mut self, count: u32, number: u32)
        requires at_most { count ≤ 32 }
        requires fits { number < 2 ^ count }
        requires room { count ≤ self.old.room }
        ensures bits { self.new.bits ≡ self.old.bits ++ number_bits count number }
        ensures room { self.old.room ≤ self.new.room + count }
    {
        let length = self.rest_len + count;
        let all = (self.rest << count) + number as u64;
        self.rest_len = push_whole_bytes(&mut self.bytes, all, length);
        self.rest = all & ((1 << self.rest_len) - 1);
    }

    // Returns the bits as bytes, the last one filled with zeros.
    pub(super) fn into_bytes(self) -> Vec<u8>
        ensures { (zeros : ℕ) × (zeros < 8)
            × (bits_of result.items ≡ self.bits ++ replicate zeros false) }
    {
        let mut bytes = self.bytes;
        let zeros = (8 - self.rest_len) % 8;
        push_whole_bytes(&mut bytes, self.rest << zeros, self.rest_len + zeros);
        bytes
    }
}

// Pushes the whole bytes of `number`, from its first bits on, and returns how many bits are left.
fn push_whole_bytes(bytes: &mut Vec<u8>, number: u64, length: u32) -> u32
    requires at_most { length ≤ 64 }
    requires room { 8 * vec_len bytes.old + length ≤ 8 * vec_capacity bytes.old }
    ensures bits { bits_of bytes.new.items ++ number_bits result number
        ≡ bits_of bytes.old.items ++ number_bits length number }
    ensures at_most { result < 8 }
    ensures length { 8 * vec_len bytes.new + result ≡ 8 * vec_len bytes.old + length }
    ensures capacity_at_least { vec_capacity bytes.old ≤ vec_capacity bytes.new }
{
    let mut left = length;
    while left >= 8 {
        left -= 8;
        bytes.push_reserved(((number >> left) & 0xff) as u8);
    }
    left
}
