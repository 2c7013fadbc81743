//! A core's run as a tree, and waves that have begun: laws that tie them to the definitions of a core's run and of a run.
#![tactic(auto)]

ghost use Rattle.run_trees.specs.Laws.{TreesAreRuns, RunsAreTrees, TreesEnd};
ghost use Rattle.run_trees.specs.Begun.{BegunAreFronts, EndedAreOrdered, EnterGoesOn, EntryGoesOn, FrontsAreBegun, NoneHaveBegun};
ghost use Rattle.run_trees.specs.Begun.{BeginsAreOne, EnteredAreOne, FrontsGoOn, NoneAreLeft, WaveGoesOn, WholeAreGone};
ghost use Rattle.run_trees.specs.Begun.{NewMadeNone, WaveFills, WaveIsOver};

/// What leads along the tree of a script to an end is a core's run, and a core's run leads along it; and from each place an end can
/// be reached. So what a core made so far is the begin of one of its runs exactly where it leads along the tree.
pub fn trees_are_runs()
    ensures runs { TreesAreRuns }
    ensures trees { RunsAreTrees }
    ensures ends { TreesEnd }
{}

/// Each begin of a list that the rules of waves allow has begun as is kept of it, and what has begun so can go on to such a list; where
/// all cores have ended and no wave follows, what is kept is of a whole list. The next core of a wave may enter, and a core of a wave that
/// has entered may make the step that it asks for. Where all have ended, the next wave begins; where no core is in it, the list is whole.
/// While a wave is not over, the list is not whole where the wave has cores, and an entry that is neither the next Enter nor its core's
/// next step makes it no begin any more. The cores that ran fix which entries stand before a wave, and what a core made its place in its
/// tree. A wave may also be read whole, from its begin: its entries so far fill it, and where its cores have ended the next begins.
pub fn waves_have_begun()
    ensures fronts { FrontsAreBegun }
    ensures begun { BegunAreFronts }
    ensures ended { EndedAreOrdered }
    ensures enters { EnterGoesOn }
    ensures goes_on { EntryGoesOn }
    ensures wave_goes_on { WaveGoesOn }
    ensures none_yet { NoneHaveBegun }
    ensures fronts_go_on { FrontsGoOn }
    ensures whole_gone { WholeAreGone }
    ensures none_left { NoneAreLeft }
    ensures one_begin { BeginsAreOne }
    ensures one_place { EnteredAreOne }
    ensures new_made_none { NewMadeNone }
    ensures wave_fills { WaveFills }
    ensures wave_is_over { WaveIsOver }
{}
