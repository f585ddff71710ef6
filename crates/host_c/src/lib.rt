// What a host in C or Rust links: each export calls the function of `host` of its name, and promises what that one promises.
// The five stand here once more, since a crate is a library or a static library and not both.
#![tactic(auto)]

ghost use Rattle.std.specs.Prelude.{◌≡◌};
ghost use Rattle.detector.specs.Ewma.{idle, made_of, updated, reset_of, recalibrated};
ghost use Rattle.host.specs.Answers.{answer_of, handed};

use detector::EwmaDetector;
use host::{MadeDetector, SampleAnswer};

// `EwmaDetector::new` for a host.
#[unsafe(no_mangle)]
pub extern "C" fn detector_new(alpha: f32, z_threshold: f32) -> MadeDetector
    ensures { result ≡ handed idle (made_of alpha z_threshold 10 5) }
{
    host::detector_new(alpha, z_threshold)
}

// `EwmaDetector::with_options` for a host.
#[unsafe(no_mangle)]
pub extern "C" fn detector_with_options(
    alpha: f32,
    z_threshold: f32,
    freeze_duration: u32,
    warmup_count: u32,
) -> MadeDetector
    ensures { result ≡ handed idle (made_of alpha z_threshold freeze_duration warmup_count) }
{
    host::detector_with_options(alpha, z_threshold, freeze_duration, warmup_count)
}

// `update` for a host: one sample changes the lent detector in place.
#[unsafe(no_mangle)]
pub extern "C" fn detector_update(detector: &mut EwmaDetector, value: f32) -> SampleAnswer
    ensures { (detector.new ≡ (updated detector.old value).detector) × (result ≡ answer_of (updated detector.old value).said) }
{
    host::detector_update(detector, value)
}

// `set_freeze_duration` for a host: the lent detector gets the new duration, or stays as it was beside refusal 8.
#[unsafe(no_mangle)]
pub extern "C" fn detector_set_freeze_duration(detector: &mut EwmaDetector, duration: u32) -> u32
    ensures { (detector.new ≡ (handed detector.old (reset_of detector.old duration)).detector)
        × (result ≡ (handed detector.old (reset_of detector.old duration)).refusal) }
{
    host::detector_set_freeze_duration(detector, duration)
}

// `recalibrate` for a host: the lent detector is calibrated in place.
#[unsafe(no_mangle)]
pub extern "C" fn detector_recalibrate(detector: &mut EwmaDetector, baseline: f32)
    ensures { detector.new ≡ recalibrated detector.old baseline }
{
    host::detector_recalibrate(detector, baseline);
}
