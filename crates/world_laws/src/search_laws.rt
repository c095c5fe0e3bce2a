//! Laws of what views cost. The functions do nothing: their contracts are the laws.
ghost use Rattle.graph_model.specs.Searches.{ViewKind, IsWindow, IsNodeFilter, IsOtherFilter, IsNameView, Searches, searches, fused_over, fused_searches, digits, point_searches, list_searches, searches_with};
ghost use Rattle.graph_model.specs.declared.queries.Ask.{Ask};
ghost use Rattle.std.specs.Prelude.{◌≡◌, ◌≤◌, ◌↔◌, ℕ, List, [], ◌∷◌, ◌++◌, ◌<◌, ◌^◌, ◌+◌, ◌/◌, ◌⊎◌, false};
ghost use Rattle.std.specs.List.{AllByRecursion};

/// A number has at most `k` binary digits exactly where it is less than 2 to the power `k`.
pub fn digits_are_binary()
    ensures { (n k : ℕ) → (digits n ≤ k) ↔ (n < 2 ^ k) }
{}

/// A larger number has no fewer digits, and half of a number has one digit less.
pub fn halves_have_one_digit_less()
    ensures more { (m n : ℕ) → m ≤ n → digits m ≤ digits n }
    ensures half { (n : ℕ) → 0 < n → digits n ≡ digits (n / 2) + 1 }
{}

/// The searches of a stack with one more view are those of the stack and what the view adds.
pub fn views_on_top_add_their_searches()
    ensures { (ks : List ViewKind) (k : ViewKind)
        → searches (ks ++ k ∷ []) ≡ searches_with (searches ks) k }
{}

/// A fused stack costs no more searches than one that is not.
pub fn fused_stacks_cost_no_more()
    ensures { (ks : List ViewKind)
        → ((fused_searches ks).nodes ≤ (searches ks).nodes)
        × ((fused_searches ks).edges ≤ (searches ks).edges) }
{}

/// The fused searches of a counted question are at most its searches, whatever the numbers of nodes
/// and edges.
pub fn fused_questions_cost_no_more()
    ensures point { (ks : List ViewKind) (ask : Ask)
        → point_searches (fused_searches ks) ask ≤ point_searches (searches ks) ask }
    ensures listed { (ks : List ViewKind) (n e : ℕ) (ask : Ask)
        → list_searches (fused_searches ks) n e ask ≤ list_searches (searches ks) n e ask }
{}

/// Filters by content cut a stack into runs. A run with a window adds the searches of one window,
/// however many it has, and a run without adds nothing; a filter by values of nodes adds twice the
/// node searches of what stands before it, and the other filters add nothing.
pub fn runs_cost_one_window()
    ensures without { (s : Searches) (run : List ViewKind)
        → AllByRecursion (λ k. k ≡ IsNameView) run
        → fused_over false s run ≡ s }
    ensures windows { (s : Searches) (names run : List ViewKind)
        → AllByRecursion (λ k. k ≡ IsNameView) names
        → AllByRecursion (λ k. (k ≡ IsNameView) ⊎ (k ≡ IsWindow)) run
        → fused_over false s (names ++ IsWindow ∷ run) ≡ searches_with s IsWindow }
    ensures node_filter { (ks run : List ViewKind)
        → fused_searches (ks ++ IsNodeFilter ∷ run)
        ≡ fused_over false (searches_with (fused_searches ks) IsNodeFilter) run }
    ensures other_filter { (ks run : List ViewKind)
        → fused_searches (ks ++ IsOtherFilter ∷ run) ≡ fused_over false (fused_searches ks) run }
{}
