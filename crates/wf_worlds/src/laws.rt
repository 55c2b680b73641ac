//! The laws.
ghost use Rattle.wf_worlds.specs.Counts.{CountsAreBounded, AbsorbCountsFit};
ghost use Rattle.wf_worlds.specs.Growing.{UpdatesGoOn, AdmitKeeps, TurnKeeps, GoodFollows};
ghost use Rattle.wf_worlds.specs.Worlds.{StandsSound, ActSound, ActGoesOn, WholeRun, SoundIsLean};
ghost use Rattle.wf_worlds.specs.Kept.{LocalIsView, LocalIsSorted, LocalUpdateInRange, SoundIsKept, LetterIsFit};

/// After j Turns no open count is over 65,408 times j.
pub fn counts_are_bounded()
    ensures { CountsAreBounded }
{}

/// So the counts of the next Turn fit 32 bits.
pub fn absorb_counts_fit()
    ensures { AbsorbCountsFit }
{}

/// A history that goes on keeps its unit's views and updates.
pub fn updates_go_on()
    ensures { UpdatesGoOn }
{}

/// An admission that the rule lets in keeps what a history must have.
pub fn admit_keeps()
    ensures { AdmitKeeps }
{}

/// So does a Turn.
pub fn turn_keeps()
    ensures { TurnKeeps }
{}

/// What a server keeps of its history is all that the central law asks of it.
pub fn good_follows()
    ensures { GoodFollows }
{}

/// A record that may stand keeps the invariant of all servers.
pub fn stands_sound()
    ensures { StandsSound }
{}

/// So does each line.
pub fn act_sound()
    ensures { ActSound }
{}

/// Histories only grow.
pub fn act_goes_on()
    ensures { ActGoesOn }
{}

/// After every list of lines the invariant holds.
pub fn whole_run()
    ensures { WholeRun }
{}

/// So the central law holds of the histories.
pub fn sound_is_lean()
    ensures { SoundIsLean }
{}

/// Each view of a history is one of its part.
pub fn local_is_view()
    ensures { LocalIsView }
{}

/// Where inputs are fit, it has values of their sorts.
pub fn local_is_sorted()
    ensures { LocalIsSorted }
{}

/// Each update that a good history makes is in the ranges of its bytes.
pub fn local_update_in_range()
    ensures { LocalUpdateInRange }
{}

/// In a sound world what reached a server is fit, and its views have the sorts and counts that steps need.
pub fn sound_is_kept()
    ensures { SoundIsKept }
{}

/// What a server is sent of its peers is fit for it.
pub fn letter_is_fit()
    ensures { LetterIsFit }
{}
