//! Finds the shortest linear recurrence that a sequence of bytes follows, with the Berlekamp-Massey
//! algorithm.

ghost use Rattle.std.specs.Prelude.{◌≡◌, ℕ, ◌+◌, ◌<◌, ◌≤◌, slice_index, bit_xor};
ghost use Rattle.qrcode_ec.specs.Field.{product};
ghost use Rattle.qrcode_reader.specs.correct.Polynomials.{combined, EndsAt};
ghost use Rattle.qrcode_reader.specs.correct.Recurrences.{FollowShortest, IsSearch};

use qrcode_ec::{ROOM, product, quotient};

/// Sums up the products of the first `count` coefficients and the values from `place` on.
pub(crate) fn combine(
    coefficients: &[u8; ROOM],
    count: usize,
    values: &[u8; ROOM],
    place: usize,
) -> u8
    requires inside { place + count ≤ 72 }
    requires ends { EndsAt coefficients.now count }
    ensures value { result ≡ combined coefficients.now (slice_index values.now) place }
{
    let mut sum = 0;
    for j in 0..count {
        sum ^= product(coefficients[j], values[place + j]);
    }
    sum
}

// Adds `factor` times `other`, which has `count` coefficients.
fn add_multiple(coefficients: &mut [u8; ROOM], factor: u8, other: &[u8; ROOM], count: usize)
    requires at_most { count ≤ 72 }
    requires ends { EndsAt other.now count }
    ensures value { (j : ℕ) → slice_index coefficients.new j
        ≡ bit_xor (slice_index coefficients.old j) (product factor (slice_index other.now j)) }
{
    for j in 0..count {
        coefficients[j] ^= product(factor, other[j]);
    }
}

// Returns the polynomial times x to the power `exponent`.
fn raised(coefficients: &[u8; ROOM], count: usize, exponent: usize) -> [u8; ROOM]
    requires inside { count + exponent ≤ 72 }
    requires ends { EndsAt coefficients.now count }
    ensures zeros { (j : ℕ) → j < exponent → slice_index result j ≡ 0 }
    ensures value { (j : ℕ) → slice_index result (exponent + j) ≡ slice_index coefficients.now j }
{
    let mut row = [0; ROOM];
    for j in 0..count {
        row[exponent + j] = coefficients[j];
    }
    row
}

/// The state of the search: the shortest polynomial that the values so far follow.
#[derive(Drop)]
pub(crate) struct Search {
    /// The degree of the polynomial.
    pub(crate) degree: usize,
    /// Its coefficients, lowest first.
    pub(crate) current: [u8; ROOM],
    // The polynomial before the last change of the degree, and what it gave instead of zero there.
    earlier: [u8; ROOM],
    scale: u8,
}

impl Search {
    // Starts with no values, and the polynomial 1.
    fn new(values: &[u8; ROOM]) -> Search
        ensures { IsSearch (slice_index values.now) 0
            result.degree result.current result.earlier result.scale }
    {
        let mut current = [0; ROOM];
        current[0] = 1;
        Search {
            degree: 0,
            current,
            earlier: [0; ROOM],
            scale: 1,
        }
    }

    // Takes value `n` into account.
    fn advance(&mut self, values: &[u8; ROOM], n: usize)
        requires at_most { n < 69 }
        requires search { IsSearch (slice_index values.now) n
            self.old.degree self.old.current self.old.earlier self.old.scale }
        ensures { IsSearch (slice_index values.now) (n + 1)
            self.new.degree self.new.current self.new.earlier self.new.scale }
    {
        let degree = self.degree;
        let error = combine(&self.current, degree + 1, values, n - degree);
        if error == 0 {
            return;
        }
        let factor = quotient(error, self.scale);
        if degree + degree <= n {
            let mut longer = raised(&self.current, degree + 1, n + 1 - degree - degree);
            add_multiple(&mut longer, factor, &self.earlier, n + 1 - degree);
            self.earlier = self.current;
            self.current = longer;
            self.degree = n + 1 - degree;
            self.scale = error;
        } else {
            let multiple = raised(&self.earlier, n + 1 - degree, degree + degree - n - 1);
            add_multiple(&mut self.current, factor, &multiple, degree);
        }
    }

    /// Returns a polynomial of the lowest degree that the first `n` values follow.
    pub(crate) fn shortest(values: &[u8; ROOM], n: usize) -> Search
        requires { n ≤ 69 }
        ensures at_most { result.degree ≤ n }
        ensures value { FollowShortest (slice_index values.now) n result.degree result.current }
    {
        let mut search = Search::new(values);
        for k in 0..n {
            search.advance(values, k);
        }
        search
    }
}
