ghost use Rattle.hv_law_jobs.specs.Fitting.{JobsFitByHand};
ghost use Rattle.hv_law_jobs.specs.Lasting.{JobsLast};
ghost use Rattle.hv_law_jobs.specs.Sets.{ThresholdsByHand};
ghost use Rattle.hv_law_jobs.specs.Sound.{JobsGoOn, JobsAreSound, PublishedGoFurther};
ghost use Rattle.hv_law_jobs.specs.Worked.{JobsByHand};

/// Books with jobs, worked out by hand.
pub fn jobs_by_hand()
    ensures law { JobsByHand }
{}

/// Which entries of jobs fit such books, and which don't.
pub fn jobs_fit_by_hand()
    ensures law { JobsFitByHand }
{}

/// The thresholds behind texts of SET.
pub fn thresholds_by_hand()
    ensures law { ThresholdsByHand }
{}

/// A job keeps what it was asked, and each step that it made, whatever entries come.
pub fn jobs_last()
    ensures law { JobsLast }
{}

/// Each entry that fits keeps what is said of jobs.
pub fn jobs_go_on()
    ensures law { JobsGoOn }
{}

/// So it holds of every book whose entries fit.
pub fn jobs_are_sound()
    ensures law { JobsAreSound }
{}

/// What a job is about to publish reaches beyond all that is published in its partition.
pub fn published_go_further()
    ensures law { PublishedGoFurther }
{}
