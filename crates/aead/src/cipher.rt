// AES under a key of either length.
ghost use Rattle.std.specs.Prelude.{◌≡◌};
ghost use Rattle.aead.specs.Cipher.{encrypted, short_cipher, long_cipher, cipher_under};

use aes::Schedule;

// A key's schedule.
#[derive(Clone, Copy)]
pub enum Cipher {
    Short(Schedule<176>),
    Long(Schedule<240>),
}

// Under a key of 16 bytes.
impl From<[u8; 16]> for Cipher {
    ghost from_gives = { λ key cipher. cipher ≡ short_cipher key };

    fn from(key: [u8; 16]) -> Cipher {
        Cipher::Short(Schedule::from(key))
    }
}

// Under a key of 32 bytes.
impl From<[u8; 32]> for Cipher {
    ghost from_gives = { λ key cipher. cipher ≡ long_cipher key };

    fn from(key: [u8; 32]) -> Cipher {
        Cipher::Long(Schedule::from(key))
    }
}

impl Cipher {
    // Under a key of 16 or 32 bytes. Any other is cut or filled with zeros to 16: callers refuse it first.
    pub fn under(key: &[u8]) -> Cipher
        ensures { result ≡ cipher_under key.now }
    {
        if let Some(long) = key.as_array::<32>() {
            return Cipher::from(*long);
        }
        let mut short = [0u8; 16];
        octets::copy(key, &mut short);
        Cipher::from(short)
    }

    // The block under the key's schedule.
    pub fn encrypt(&self, block: [u8; 16]) -> [u8; 16]
        ensures { result ≡ encrypted self.now block }
    {
        match self {
            Cipher::Short(schedule) => schedule.encrypt(block),
            Cipher::Long(schedule) => schedule.encrypt(block),
        }
    }
}
