// What was judged. The ghost fields name definitions that speak of the structs of the crate, so they stand in a module of their own.
ghost use Rattle.std.specs.Prelude.{◌≤◌};
ghost use Rattle.rules.specs.Limits.{rate_max, bucket_max};
ghost use Rattle.model.specs.Recording.{Within};
ghost use Rattle.recording.specs.Given.{recording_of};

use crate::{Bucket, Recording};

// A recording that keeps every limit.
#[derive(Clone, Copy)]
pub struct Judged<'a> {
    pub recording: Recording<'a>,
    ghost within: { Within (recording_of recording) },
}

// A bucket at its rate that keeps every limit.
#[derive(Clone, Copy)]
pub struct JudgedBucket {
    pub bucket: Bucket,
    ghost within: { (bucket.rate ≤ rate_max) × (bucket.buffer ≤ bucket_max) × (bucket.fullness ≤ bucket.buffer) },
}
