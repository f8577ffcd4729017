//! The laws of replacement, for all trees.

ghost use Rattle.std.specs.Prelude.{◌≡◌, ℕ, suc, false, ◌+◌, ◌-◌, ◌*◌, ◌<◌, ◌≤◌};
ghost use Rattle.pvs_terms.specs.Tree.{Text, Tree, Trees, Var, size, depth, top_index, free_below, is_local, trees_size, trees_depth, AreClosed};
ghost use Rattle.pvs_terms.specs.Sorts.{sort_of, IsTerm, IsSorted, AreSorted};
ghost use Rattle.pvs_subst.specs.Replace.{raised_index, lift, put_var, put_at, put_in};
ghost use Rattle.pvs_subst.specs.Instance.{instantiate, instantiate_all, HasActuals};

/// The laws of lifting, substitution and instances, which hold of all trees. The calls of this
/// crate make the trees that these laws speak of. It does nothing.
pub fn replacement_laws()
    // An index after lifting, and what stands for an index after substitution.
    ensures raised_below { (by from n : ℕ) → n < from → raised_index by from n ≡ n }
    ensures raised_above { (by from n : ℕ) → from ≤ n → raised_index by from n ≡ n + by }
    ensures variable_below { (u : Tree) (at n : ℕ) → n < at → put_var u at n ≡ Var n }
    ensures variable_at { (u : Tree) (at : ℕ) → put_var u at at ≡ lift u at 0 }
    ensures variable_above { (u : Tree) (at n : ℕ) → at < n → put_var u at n ≡ Var (n - 1) }

    // Lifting twice, in either order, by nothing, and of a tree without an index to raise.
    ensures lift_lift { (t : Tree) (b c f : ℕ) → lift (lift t b f) c f ≡ lift t (b + c) f }
    ensures lift_lift_within { (t : Tree) (b c f g : ℕ) → f ≤ g → g ≤ f + b →
        lift (lift t b f) c g ≡ lift t (b + c) f }
    ensures lift_past_lift { (t : Tree) (a b i j m : ℕ) → i ≤ j → m ≡ j + a →
        lift (lift t a i) b m ≡ lift (lift t b j) a i }
    ensures lift_by_nothing { (t : Tree) (f : ℕ) → lift t 0 f ≡ t }
    ensures lift_closed { (t : Tree) (by from : ℕ) → free_below t ≤ from → lift t by from ≡ t }

    // Substitution for an index that does not occur, or that lifting left out.
    ensures put_at_closed { (t u : Tree) (at : ℕ) → free_below t ≤ at → put_at t u at ≡ t }
    ensures put_at_lift { (t u : Tree) (b f at : ℕ) → f ≤ at → at ≤ f + b →
        put_at (lift t (suc b) f) u at ≡ lift t b f }
    ensures put_in_lift { (t u : Tree) → put_in (lift t 1 0) u ≡ t }

    // Lifting past substitution, and substitution past substitution.
    ensures lift_put_at_below { (t u : Tree) (by from at m : ℕ) → from ≤ at → m ≡ at + by →
        lift (put_at t u at) by from ≡ put_at (lift t by from) u m }
    ensures lift_put_at_above { (t u : Tree) (by from at k : ℕ) → from ≡ at + k →
        lift (put_at t u at) by from ≡ put_at (lift t by (suc from)) (lift u by k) at }
    ensures lift_put_in { (t u : Tree) (by from : ℕ) →
        lift (put_in t u) by from ≡ put_in (lift t by (suc from)) (lift u by from) }
    ensures put_at_put_at { (t u v : Tree) (i j k : ℕ) → j ≡ i + k →
        put_at (put_at t u i) v j ≡ put_at (put_at t v (suc j)) (put_at u v k) i }
    ensures put_at_put_in { (t u v : Tree) (k : ℕ) →
        put_at (put_in t u) v k ≡ put_in (put_at t v (suc k)) (put_at u v k) }

    // Instances past lifting and substitution, of instances, and of a tree without own entries and
    // formals. The actuals are closed.
    ensures instantiate_lift { (t : Tree) (by from : ℕ) (th : Text) (acts : Trees) → AreClosed acts →
        instantiate (lift t by from) th acts ≡ lift (instantiate t th acts) by from }
    ensures instantiate_put_at { (t u : Tree) (at : ℕ) (th : Text) (acts : Trees) → AreClosed acts →
        instantiate (put_at t u at) th acts ≡ put_at (instantiate t th acts) (instantiate u th acts) at }
    ensures instantiate_put_in { (t u : Tree) (th : Text) (acts : Trees) → AreClosed acts →
        instantiate (put_in t u) th acts ≡ put_in (instantiate t th acts) (instantiate u th acts) }
    ensures instantiate_instantiate { (t : Tree) (th : Text) (acts : Trees) (uh : Text) (bcts : Trees) → HasActuals acts t →
        instantiate (instantiate t th acts) uh bcts ≡ instantiate t th (instantiate_all acts uh bcts) }
    ensures instantiate_foreign { (t : Tree) (th : Text) (acts : Trees) → is_local t ≡ false →
        instantiate t th acts ≡ t }
    ensures instantiate_free { (t : Tree) (th : Text) (acts : Trees) → AreClosed acts →
        free_below (instantiate t th acts) ≡ free_below t }
    ensures instantiate_closed { (xs : Trees) (th : Text) (acts : Trees) → AreClosed acts → AreClosed xs →
        AreClosed (instantiate_all xs th acts) }

    // Sorts stay.
    ensures lift_sort { (t : Tree) (by from : ℕ) → sort_of (lift t by from) ≡ sort_of t }
    ensures lift_sorted { (t : Tree) (by from : ℕ) → IsSorted t → IsSorted (lift t by from) }
    ensures put_at_sort { (t u : Tree) (at : ℕ) → IsTerm u → sort_of (put_at t u at) ≡ sort_of t }
    ensures put_at_sorted { (t u : Tree) (at : ℕ) → IsTerm u → IsSorted u → IsSorted t →
        IsSorted (put_at t u at) }
    ensures instantiate_sort { (t : Tree) (th : Text) (acts : Trees) → HasActuals acts t →
        sort_of (instantiate t th acts) ≡ sort_of t }
    ensures instantiate_sorted { (t : Tree) (th : Text) (acts : Trees) → HasActuals acts t → AreSorted acts →
        IsSorted t → IsSorted (instantiate t th acts) }

    // Sizes, depths and indices.
    ensures lift_size { (t : Tree) (by from : ℕ) → size (lift t by from) ≡ size t }
    ensures lift_depth { (t : Tree) (by from : ℕ) → depth (lift t by from) ≡ depth t }
    ensures lift_top_index { (t : Tree) (by from : ℕ) →
        top_index (lift t by from) ≤ top_index t + by }
    ensures lift_free { (t : Tree) (by from : ℕ) → free_below (lift t by from) ≤ free_below t + by }
    ensures put_at_size { (t u : Tree) (at : ℕ) → size t ≤ size (put_at t u at) }
    ensures put_at_size_most { (t u : Tree) (at : ℕ) → size (put_at t u at) ≤ size t * size u }
    ensures put_at_depth { (t u : Tree) (at : ℕ) → depth t ≤ depth (put_at t u at) }
    ensures put_at_depth_most { (t u : Tree) (at : ℕ) → depth (put_at t u at) < depth t + depth u }
    ensures put_at_free { (t u : Tree) (at k : ℕ) → free_below t ≤ suc k → at ≤ k → free_below u + at ≤ k →
        free_below (put_at t u at) ≤ k }
    ensures instantiate_size { (t : Tree) (th : Text) (acts : Trees) →
        size t ≤ size (instantiate t th acts) }
    ensures instantiate_size_most { (t : Tree) (th : Text) (acts : Trees) →
        size (instantiate t th acts) ≤ size t * (1 + trees_size acts) }
    ensures instantiate_depth { (t : Tree) (th : Text) (acts : Trees) →
        depth t ≤ depth (instantiate t th acts) }
    ensures instantiate_depth_most { (t : Tree) (th : Text) (acts : Trees) →
        depth (instantiate t th acts) ≤ depth t + trees_depth acts }
{}
