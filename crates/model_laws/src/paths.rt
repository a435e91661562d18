//! Laws of paths, strengths and responses, of every network.

ghost use Rattle.std.specs.Prelude.{◌≡◌, ℕ, ◌≤◌, ◌++◌, List};
ghost use Rattle.model_laws.specs.Walks.{IsDeviceWalk, PathTo};
ghost use Rattle.vrt_model.specs.Networks.{IsFinite, HasLevels, IsSource};
ghost use Rattle.vrt_model.specs.Path.{Hop, IsPath, Network, Root, end_of, level_of};
ghost use Rattle.vrt_model.specs.Response.{IsClear, IsResponse, IsStrength, Response};

/// A walk, which may pass a net twice, can be shortened to a path from the same root to the same end that is no weaker;
/// and each path is a walk.
#[tactic(auto, using(crate::proofs::WalkLaws::walk_shortened, crate::proofs::WalkLaws::path_walk))]
pub fn walks()
    ensures shortened { (w : Network) (root : Root) (hops : List Hop) → IsDeviceWalk w root hops → PathTo w root (end_of root hops) (level_of root hops) }
    ensures paths { (w : Network) (root : Root) (hops : List Hop) → IsPath w root hops → IsDeviceWalk w root hops }
{}

/// What is left of a clear path, where its last devices are taken off, is clear; and a clear path has the strength of the
/// net at which it ends.
#[tactic(auto, using(crate::proofs::PathLaws::clear_prefix, crate::proofs::PathLaws::clear_level))]
pub fn clear_paths()
    ensures prefix { (w : Network) (root : Root) (last rest : List Hop) → IsClear w root (last ++ rest) → IsClear w root rest }
    ensures level { (w : Network) (root : Root) (hops : List Hop) → IsClear w root hops → IsStrength w (end_of root hops) (level_of root hops) }
{}

/// A net has at most one strength and at most one response, and where numbers of nets and levels of roots are bounded it
/// has one of each.
#[tactic(auto, using(vrt_model::proofs::Laws::one_strength, vrt_model::proofs::Laws::one_response))]
pub fn one_answer()
    ensures one_strength { (w : Network) (n s t : ℕ) → IsStrength w n s → IsStrength w n t → s ≡ t }
    ensures one_response { (w : Network) (n : ℕ) (r q : Response) → IsResponse w n r → IsResponse w n q → r ≡ q }
    ensures some_strength { (w : Network) (bound top : ℕ) → IsFinite w bound top → (n : ℕ) → (s : ℕ) × IsStrength w n s }
    ensures some_response { (w : Network) (bound top : ℕ) → IsFinite w bound top → (n : ℕ) → (r : Response) × IsResponse w n r }
{}

/// A path that passes a source is no stronger than what of it begins there: it raises no strength beyond the source.
pub fn sources_on_paths()
    ensures { (w : Network) → HasLevels w → (root : Root) (last rest : List Hop) → IsPath w root (last ++ rest) → IsPath w root rest → (source : IsSource w (end_of root rest)) → IsPath w source.0 last × (end_of source.0 last ≡ end_of root (last ++ rest)) × (level_of root (last ++ rest) ≤ level_of source.0 last) }
{}
