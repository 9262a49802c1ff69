// The digest of bytes.
const MODULUS: u64 = 4294967291;

#[derive(Clone, Copy)]
pub(crate) struct Digest(u32);

impl Digest {
    // The digest of no bytes.
    pub(crate) const EMPTY: Digest = Digest(1);

    pub(crate) fn of(bytes: &[u8]) -> u32 {
        let mut digest = Digest::EMPTY;
        digest.add(bytes);
        digest.finish()
    }

    pub(crate) fn add(&mut self, bytes: &[u8]) {
        for byte in bytes {
            let sum = u64::from(self.0) * 257 + u64::from(*byte);
            self.0 = (sum % MODULUS) as u32;
        }
    }

    pub(crate) fn finish(self) -> u32 {
        self.0
    }
}
