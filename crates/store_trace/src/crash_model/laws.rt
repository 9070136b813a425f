//! The laws of the crash model, each as the contract of a function with an empty body: a caller has the
//! law as what that call ensures. Steps stand with the newest first.

ghost use Rattle.store_trace.specs.Cut.{IsBefore, IsCut, IsCutImage, IsWithin, cut_count, cuts, number_in, numbered, stored_lines};
ghost use Rattle.store_trace.specs.Floor.{IsFloor, cleaned, floor};
ghost use Rattle.store_trace.specs.Image.{applied, image, line_after, memory_after};
ghost use Rattle.store_trace.specs.Schedule.{explained, without_evictions};
ghost use Rattle.store_trace.specs.Stores.{stores, writes};
ghost use Rattle.store_trace.specs.WrittenBack.{write_back_state, is_dirty, is_pending, written_back};
ghost use Rattle.store_trace.specs.declared.crash_model.step.PersistenceStep.TheVariants as step;
ghost use Rattle.store_trace.specs.declared.crash_model.step.PersistenceStep.{PersistenceStep};
ghost use Rattle.std.specs.List.Sorted.{IsStrictlyIncreasing};
ghost use Rattle.std.specs.Prelude.{◌≡◌, ◌↔◌, ◌+◌, ◌<◌, ◌≤◌, ◌==◌, ◌&&◌, ◌||◌, ℕ, List, ◌∷◌, false, if◌then◌else◌, length, max, take, slice_index_or, AllPairs, Contains};

/// What is written back of a line lies between its floor and its number of stores.
#[tactic(auto, using(crate::proofs::Bounds::floor_le_written_back, crate::proofs::Bounds::written_back_le_stores))]
pub fn written_back_bounds()
    ensures low { (l : ℕ) (p : List PersistenceStep) → floor l p ≤ written_back l p }
    ensures high { (l : ℕ) (p : List PersistenceStep) → written_back l p ≤ stores l p }
{}

/// The floor is the greatest number of stores before a clean that a later fence of its hart completed.
#[tactic(auto, using(crate::proofs::Fenced::fenced_is_floor))]
pub fn floor_is_greatest()
    ensures { (l : ℕ) (p : List PersistenceStep) → IsFloor l p (floor l p) }
{}

/// What is written back, and which cleans pend, by the rules of write-backs.
#[tactic(auto, using(crate::proofs::Pendings::back_count, crate::proofs::Pendings::back_pends))]
pub fn written_back_by_pendings()
    ensures count { (l : ℕ) (p : List PersistenceStep) → (write_back_state l p).count ≡ written_back l p }
    ensures pends { (l h : ℕ) (p : List PersistenceStep) → (write_back_state l p).pends h ≡ is_pending l h p }
{}

/// A store counts for its own line, and changes nothing else.
pub fn store_step()
    ensures stores { (l line offset width value : ℕ) (p : List PersistenceStep) →
        stores l (step.Store line offset width value ∷ p) ≡ (if line == l then stores l p + 1 else stores l p) }
    ensures floor { (l line offset width value : ℕ) (p : List PersistenceStep) →
        floor l (step.Store line offset width value ∷ p) ≡ floor l p }
    ensures back { (l line offset width value : ℕ) (p : List PersistenceStep) →
        written_back l (step.Store line offset width value ∷ p) ≡ written_back l p }
    ensures pends { (l h line offset width value : ℕ) (p : List PersistenceStep) →
        is_pending l h (step.Store line offset width value ∷ p) ≡ is_pending l h p }
{}

/// A clean of a dirty line pends for its hart, and changes nothing else.
#[tactic(auto, using(crate::proofs::Pendings::pends_clean))]
pub fn clean_step()
    ensures stores { (l hart line : ℕ) (p : List PersistenceStep) → stores l (step.Clean hart line ∷ p) ≡ stores l p }
    ensures floor { (l hart line : ℕ) (p : List PersistenceStep) → floor l (step.Clean hart line ∷ p) ≡ floor l p }
    ensures back { (l hart line : ℕ) (p : List PersistenceStep) →
        written_back l (step.Clean hart line ∷ p) ≡ written_back l p }
    ensures pends { (l h hart line : ℕ) (p : List PersistenceStep) →
        is_pending l h (step.Clean hart line ∷ p)
        ≡ (((hart == h) && ((line == l) && is_dirty l p)) || is_pending l h p) }
{}

/// A fence writes back the lines that pend for its hart, and raises each floor to what its hart cleaned.
#[tactic(auto, using(crate::proofs::Pendings::pends_fence))]
pub fn fence_step()
    ensures stores { (l hart : ℕ) (p : List PersistenceStep) → stores l (step.Fence hart ∷ p) ≡ stores l p }
    ensures floor { (l hart : ℕ) (p : List PersistenceStep) →
        floor l (step.Fence hart ∷ p) ≡ max (floor l p) (cleaned l hart p) }
    ensures back { (l hart : ℕ) (p : List PersistenceStep) →
        written_back l (step.Fence hart ∷ p) ≡ (if is_pending l hart p then stores l p else written_back l p) }
    ensures pends { (l h hart : ℕ) (p : List PersistenceStep) →
        is_pending l h (step.Fence hart ∷ p) ≡ (if is_pending l hart p then false else is_pending l h p) }
{}

/// An eviction writes its line back and ends the line's pending cleans, and changes nothing else.
#[tactic(auto, using(crate::proofs::Pendings::pends_evict))]
pub fn evict_step()
    ensures stores { (l line : ℕ) (p : List PersistenceStep) → stores l (step.Evict line ∷ p) ≡ stores l p }
    ensures floor { (l line : ℕ) (p : List PersistenceStep) → floor l (step.Evict line ∷ p) ≡ floor l p }
    ensures back { (l line : ℕ) (p : List PersistenceStep) →
        written_back l (step.Evict line ∷ p) ≡ (if line == l then stores l p else written_back l p) }
    ensures pends { (l h line : ℕ) (p : List PersistenceStep) →
        is_pending l h (step.Evict line ∷ p) ≡ (if line == l then false else is_pending l h p) }
{}

/// Evictions, wherever they stand, change neither floors nor stores.
#[tactic(auto, using(crate::proofs::Explained::floor_without_evictions, crate::proofs::Explained::writes_without_evictions, crate::proofs::Explained::stores_without_evictions))]
pub fn evictions_leave_floors()
    ensures floor { (l : ℕ) (p : List PersistenceStep) → floor l (without_evictions p) ≡ floor l p }
    ensures stores { (l : ℕ) (p : List PersistenceStep) → stores l (without_evictions p) ≡ stores l p }
    ensures writes { (l : ℕ) (p : List PersistenceStep) → writes l (without_evictions p) ≡ writes l p }
{}

/// Nor do they change cuts and images.
#[tactic(auto, using(crate::proofs::Explained::image_without_evictions, crate::proofs::Explained::cuts_without_evictions, crate::proofs::Explained::cut_image_without_evictions))]
pub fn evictions_leave_cuts()
    ensures image { (start : List (List ℕ)) (k : ℕ → ℕ) (p : List PersistenceStep) →
        image start k (without_evictions p) ≡ image start k p }
    ensures cut { (p : List PersistenceStep) (cut : List (ℕ × ℕ)) → IsCut p cut ↔ IsCut (without_evictions p) cut }
    ensures cut_image { (start : List (List ℕ)) (p : List PersistenceStep) (medium : List (List ℕ)) →
        IsCutImage start p medium → IsCutImage start (without_evictions p) medium }
{}

/// The schedule of a cut has the recorded steps of the harts, and leaves exactly that cut.
#[tactic(auto, using(crate::proofs::Explained::explained_leaves, crate::proofs::Explained::explained_is_of_harts, crate::proofs::Explained::explained_image))]
pub fn schedule_leaves_cut()
    ensures harts { (p : List PersistenceStep) (k : ℕ → ℕ) → without_evictions (explained k p) ≡ without_evictions p }
    ensures leaves { (p : List PersistenceStep) (k : ℕ → ℕ) → IsWithin p k → (l : ℕ) → written_back l (explained k p) ≡ k l }
    ensures image { (start : List (List ℕ)) (p : List PersistenceStep) (k : ℕ → ℕ) → IsWithin p k →
        image start (λ l. written_back l (explained k p)) (explained k p) ≡ image start k p }
{}

/// An image has the starting lines, each after its first stores, made in order.
#[tactic(auto, using(crate::proofs::Images::length_writes, crate::proofs::Images::line_after_applied, crate::proofs::Images::image_line, crate::proofs::Images::length_image))]
pub fn images_of_lines()
    ensures stores { (l : ℕ) (p : List PersistenceStep) → length (writes l p) ≡ stores l p }
    ensures line { (start : List ℕ) (l k : ℕ) (p : List PersistenceStep) →
        line_after start l k p ≡ applied start (take k (writes l p)) }
    ensures lines { (start : List (List ℕ)) (k : ℕ → ℕ) (p : List PersistenceStep) (l : ℕ) (d e : List ℕ) →
        l < length start →
        slice_index_or (image start k p) l d ≡ line_after (slice_index_or start l e) l (k l) p }
    ensures length { (start : List (List ℕ)) (k : ℕ → ℕ) (p : List PersistenceStep) →
        length (image start k p) ≡ length start }
{}

/// With all stores an image is what loads see, and with none it is the start.
#[tactic(auto, using(crate::proofs::Images::image_memory, crate::proofs::Images::image_none))]
pub fn whole_and_empty_images()
    ensures whole { (start : List (List ℕ)) (p : List PersistenceStep) →
        image start (λ l. stores l p) p ≡ memory_after start p }
    ensures empty { (start : List (List ℕ)) (p : List PersistenceStep) → image start (λ l. 0) p ≡ start }
{}

/// The stored lines are exactly the lines with a store, upwards, each once.
#[tactic(auto, using(crate::proofs::Lines::stored_lines_increasing, crate::proofs::Lines::stored_lines_exact))]
pub fn stored_lines_go_up()
    ensures upwards { (p : List PersistenceStep) → IsStrictlyIncreasing (stored_lines p) }
    ensures exact { (l : ℕ) (p : List PersistenceStep) → Contains (stored_lines p) l ↔ (0 < stores l p) }
{}

/// A cut is a number for each line within its bounds, and each such choice is a cut.
#[tactic(auto, using(crate::proofs::Lines::cut_from_within, crate::proofs::Lines::number_in_within, crate::proofs::Lines::within_from_cut))]
pub fn numbers_are_cuts()
    ensures cut { (p : List PersistenceStep) (k : ℕ → ℕ) → IsWithin p k → IsCut p (numbered k (stored_lines p)) }
    ensures same { (p : List PersistenceStep) (k : ℕ → ℕ) → IsWithin p k →
        (l : ℕ) → number_in (numbered k (stored_lines p)) l ≡ k l }
    ensures within { (p : List PersistenceStep) (cut : List (ℕ × ℕ)) → IsCut p cut → IsWithin p (number_in cut) }
{}

/// What is written back is a cut, and a medium that holds it is the image of a cut.
#[tactic(auto, using(crate::proofs::Leaving::written_back_within, crate::proofs::Leaving::written_back_image))]
pub fn written_back_is_a_cut()
    ensures within { (p : List PersistenceStep) → IsWithin p (λ l. written_back l p) }
    ensures image { (start : List (List ℕ)) (p : List PersistenceStep) →
        IsCutImage start p (image start (λ l. written_back l p) p) }
{}

/// The list of cuts has each cut once, in lexicographic order, and their number is the product.
#[tactic(auto, using(crate::proofs::Radix::cuts_exact, crate::proofs::Radix::cuts_order, crate::proofs::Radix::length_cuts))]
pub fn cuts_are_listed()
    ensures exact { (p : List PersistenceStep) (cut : List (ℕ × ℕ)) → IsCut p cut ↔ Contains (cuts p) cut }
    ensures order { (p : List PersistenceStep) → AllPairs IsBefore (cuts p) }
    ensures count { (p : List PersistenceStep) → length (cuts p) ≡ cut_count p }
{}
