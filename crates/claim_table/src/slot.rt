//! What lies in a slot of the table.

use cell_store::Bucket;
use std::marker::Model;

/// A bucket, seen as its content.
#[derive(Drop)]
pub struct Slot {
    pub(crate) bucket: Bucket,
}

impl Model for Slot {
    ghost use Rattle.cell_store.specs.Buckets.{BucketContent, content_of};

    ghost Value = { BucketContent };

    ghost view = { λ s. content_of s.bucket };
}

impl Slot {
    ghost use Rattle.std.specs.Prelude.{◌≡◌};
    ghost use Rattle.cell_store.specs.Buckets.{content_of};

    // The slot of a bucket.
    pub(crate) fn of(bucket: Bucket) -> Slot
        ensures { result ≡ content_of bucket }
    {
        Slot { bucket }
    }

    // Its bucket.
    pub(crate) fn into_bucket(self) -> Bucket
        ensures { content_of result ≡ self }
    {
        self.bucket
    }
}
