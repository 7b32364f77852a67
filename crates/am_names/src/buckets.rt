//! The bucket of a text.

ghost use Rattle.std.specs.Prelude.{◌≡◌};
ghost use Rattle.am_names.specs.Buckets.{mix_one, bucket};

#[tactic(auto, unfolding(crate::specs::Buckets::mix_one))]
fn mix_one(bucket: u32, byte: u8) -> u32
    ensures { result ≡ mix_one bucket byte }
{
    ((bucket as u64 * 1000003 + byte as u64) % 4294967291) as u32
}

/// A number that few texts share: the same text has the same bucket, and another has mostly another.
pub fn bucket(text: &[u8]) -> u64
    ensures { result ≡ bucket text.now }
{
    let mut bucket = 0;
    for byte in text {
        bucket = mix_one(bucket, *byte);
    }
    bucket as u64
}
