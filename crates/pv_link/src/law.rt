ghost use Rattle.std.specs.Prelude.{◌≡◌, ℕ, ◌-◌, ◌<◌, ◌≤◌, Contains, length};
ghost use Rattle.pv_link.specs.Sending.{SendingEnd, numbers_to_give};

/// A law: asked as often as there are numbers that are not acknowledged, an end gives each of them, and so
/// each of them once.
pub fn each_number_comes_round()
    ensures each { (end : SendingEnd) (front number : ℕ) → end.acknowledged ≤ number → number < front
        → Contains (numbers_to_give (front - end.acknowledged) end front) number }
    ensures once { (end : SendingEnd) (front : ℕ)
        → length (numbers_to_give (front - end.acknowledged) end front) ≡ front - end.acknowledged }
{}
