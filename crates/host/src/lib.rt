// What a host in C or Rust links, to make detectors that it keeps itself and to move them in place; hosts/include/shedgrommet_detector.h says it in C.
// An enum cannot cross that border, so each answer is a struct of numbers.
#![tactic(auto)]

ghost use Rattle.std.specs.Prelude.{◌≡◌};
ghost use Rattle.detector.specs.Answers.{made_means, verdict_means};
ghost use Rattle.detector.specs.Ewma.{idle, made_of, updated, reset_of, recalibrated};
ghost use Rattle.host.specs.Answers.{answer_of, handed};

use detector::{DetectorError, EwmaDetector, Verdict, update_in_place};

// What a sample was: kind 0 ignored, 1 first sample, 2 warming, 3 scored; a score of +0 and no flag where there is none.
#[repr(C)]
#[derive(Clone, Copy)]
pub struct SampleAnswer {
    pub kind: u32,
    pub z_score: f32,
    pub is_anomalous: bool,
}

// A detector with the settings asked for beside 0, or a refusal's number beside the detector that stands there otherwise.
#[repr(C)]
#[derive(Clone, Copy)]
pub struct MadeDetector {
    pub refusal: u32,
    pub detector: EwmaDetector,
}

// A verdict as a struct of numbers.
impl From<Verdict> for SampleAnswer {
    ghost from_gives = { λ verdict answer. answer ≡ answer_of (verdict_means verdict) };

    fn from(verdict: Verdict) -> SampleAnswer {
        match verdict {
            Verdict::Ignored => SampleAnswer {
                kind: 0,
                z_score: 0.0,
                is_anomalous: false,
            },
            Verdict::First => SampleAnswer {
                kind: 1,
                z_score: 0.0,
                is_anomalous: false,
            },
            Verdict::Warming => SampleAnswer {
                kind: 2,
                z_score: 0.0,
                is_anomalous: false,
            },
            Verdict::Scored(score) => SampleAnswer {
                kind: 3,
                z_score: score.z_score,
                is_anomalous: score.is_anomalous,
            },
        }
    }
}

// A detector as it was made, or `idle` beside the refusal's number.
fn handed_over(made: Result<EwmaDetector, DetectorError>) -> MadeDetector
    ensures { result ≡ handed idle (made_means made) }
{
    match made {
        Ok(detector) => MadeDetector {
            refusal: 0,
            detector,
        },
        Err(error) => MadeDetector {
            refusal: u32::from(u8::from(error)),
            detector: EwmaDetector::idle(),
        },
    }
}

// `EwmaDetector::new` for a host.
#[unsafe(no_mangle)]
pub extern "C" fn detector_new(alpha: f32, z_threshold: f32) -> MadeDetector
    ensures { result ≡ handed idle (made_of alpha z_threshold 10 5) }
{
    handed_over(EwmaDetector::new(alpha, z_threshold))
}

// `EwmaDetector::with_options` for a host.
#[unsafe(no_mangle)]
pub extern "C" fn detector_with_options(
    alpha: f32,
    z_threshold: f32,
    freeze_duration: u32,
    warmup_count: u32,
) -> MadeDetector
    ensures { result ≡ handed idle (made_of alpha z_threshold freeze_duration warmup_count) }
{
    handed_over(EwmaDetector::with_options(alpha, z_threshold, freeze_duration, warmup_count))
}

// `update` for a host: one sample changes the lent detector in place.
#[unsafe(no_mangle)]
pub extern "C" fn detector_update(detector: &mut EwmaDetector, value: f32) -> SampleAnswer
    ensures { (detector.new ≡ (updated detector.old value).detector) × (result ≡ answer_of (updated detector.old value).said) }
{
    update_in_place(detector, value).into()
}

// `set_freeze_duration` for a host: the lent detector gets the new duration, or stays as it was beside refusal 8.
#[unsafe(no_mangle)]
pub extern "C" fn detector_set_freeze_duration(detector: &mut EwmaDetector, duration: u32) -> u32
    ensures { (detector.new ≡ (handed detector.old (reset_of detector.old duration)).detector)
        × (result ≡ (handed detector.old (reset_of detector.old duration)).refusal) }
{
    match detector.set_freeze_duration(duration) {
        Ok(next) => {
            *detector = next;
            0
        }
        Err(error) => u32::from(u8::from(error)),
    }
}

// `recalibrate` for a host: the lent detector is calibrated in place.
#[unsafe(no_mangle)]
pub extern "C" fn detector_recalibrate(detector: &mut EwmaDetector, baseline: f32)
    ensures { detector.new ≡ recalibrated detector.old baseline }
{
    *detector = detector.recalibrate(baseline);
}
