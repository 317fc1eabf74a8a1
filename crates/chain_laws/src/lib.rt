//! Laws of generated bundles: they load, and each of their tasks, run alone, puts out two words whose exclusive or is what its chain of
//! gates computes of words that aren't shared. `specs/Laws.antt` states them.
#![tactic(auto)]

ghost use Rattle.chain_laws.specs.Laws.{GeneratedBundlesLoad, ChainsArePutOut};

/// Every generated bundle of 1 to 32 tasks loads, on 1 to 8 harts.
pub fn generated_bundles_load()
    ensures law { GeneratedBundlesLoad }
{}

/// Each task of a generated bundle that was loaded exits with 0 when it runs alone, and the exclusive or of the two words that it puts
/// out is what its chain of gates computes of the exclusive ors of its shares.
pub fn chains_are_put_out()
    ensures law { ChainsArePutOut }
{}
