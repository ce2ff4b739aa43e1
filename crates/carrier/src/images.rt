// An image: a byte string of the caller's, handed out as asked, that ends clean.
ghost use Rattle.std.specs.Prelude.{◌≡◌, min, ◌++◌, length, take, drop};
ghost use Rattle.carrier.specs.declared.endings.Ending.{Ending};
ghost use Rattle.carrier.specs.declared.images.Image.{Image};
ghost use Rattle.carrier.specs.Alone.{Alone, alone_adds};

use super::{Carrier, Ending};

// Moves as many bytes as fit from the front of `bytes` to the front of `out`, and answers how many.
pub fn hand_out(bytes: &mut &[u8], out: &mut [u8]) -> usize
    ensures count { result ≡ min (length bytes.old.now) (length out.old) }
    ensures bytes { bytes.new.now ≡ drop result bytes.old.now }
    ensures out { out.new ≡ take result bytes.old.now ++ drop result out.old }
{
    let n = bytes.len().min(out.len());
    let (front, rest) = bytes.split_at(n);
    out[..n].copy_from_slice(front);
    *bytes = rest;
    n
}

#[derive(Drop)]
pub struct Image<'a> {
    // what is still to come
    rest: &'a [u8],
}

impl<'a> Image<'a> {
    pub fn new(bytes: &'a [u8]) -> Image<'a>
        ensures { result.rest.now ≡ bytes.now }
    {
        Image { rest: bytes }
    }
}

impl Carrier for Image<'_> {
    ghost coming = { λ s. s.rest.now };

    ghost ending = { λ s. Ending.Clean };

    ghost lacks = { Alone {S = Image} (λ s. s.rest.now) (λ s. Ending.Clean) };

    fn pull(&mut self, out: &mut [u8]) -> Result<usize, Ending> {
        if out.is_empty() {
            return Ok(0);
        }
        if self.rest.is_empty() {
            return Err(Ending::Clean);
        }
        Ok(hand_out(&mut self.rest, out))
    }

    ghost adds = { alone_adds {S = Image} (λ s. s.rest.now) (λ s. Ending.Clean) };
}
