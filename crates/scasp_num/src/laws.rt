//! Laws of the definitions, as functions that do nothing.
ghost use Rattle.std.specs.Prelude.{◌≡◌, ◌≢◌, ◌↔◌, ℕ, ℤ, pos, ◌+ℤ◌, ◌*ℤ◌, ◌<ℤ◌, IsTrue, is_some, IsSomeAnd, Some, List, []};
ghost use Rattle.std.specs.List.{list_all};
ghost use Rattle.scasp_num.specs.declared.linear.Coeff.{Coeff};
ghost use Rattle.scasp_num.specs.declared.linear.Op.{Op};
ghost use Rattle.scasp_num.specs.declared.linear.RatPair.{RatPair};
ghost use Rattle.scasp_num.specs.Number.{Number, IsFraction, InRange};
ghost use Rattle.scasp_num.specs.Arithmetic.{in_range};
ghost use Rattle.scasp_num.specs.Linear.{Linear, IsNormal, is_normal, Meets, coefficient, put_of, put_integers, join_of};
ghost use Rattle.scasp_num.specs.Sums.{added, addition_integers, summed, normal_of, normal_integers, SumHolds};
ghost use Rattle.scasp_num.specs.Values.{Holds, holds, with_value, HaveDenominator};

/// Two numbers that are the same fraction are equal.
pub fn same_number()
    ensures { (q r : Number) (n d : ℤ) → d ≢ pos 0 → IsFraction q n d → IsFraction r n d → q ≡ r }
{}

/// Under values with one common denominator above 0, a row's truth is a comparison of whole numbers.
pub fn common_denominator()
    ensures { (v : ℕ → Number) (m : ℕ → ℤ) (d : ℤ) (r : Linear) → pos 0 <ℤ d → HaveDenominator v m d r.coeffs → Holds v r ↔ Meets m d r }
{}

/// The values of finitely many variables have a common denominator above 0.
pub fn denominator_exists()
    ensures { (v : ℕ → Number) (ks : List Coeff) → (m : ℕ → ℤ) × (d : ℤ) × (pos 0 <ℤ d) × HaveDenominator v m d ks }
{}

/// Products of whole numbers: in any order, over sums, and without a common factor above 0.
pub fn whole_numbers()
    ensures associative { (a b c : ℤ) → (a *ℤ b) *ℤ c ≡ a *ℤ (b *ℤ c) }
    ensures left_distributive { (a b c : ℤ) → a *ℤ (b +ℤ c) ≡ a *ℤ b +ℤ a *ℤ c }
    ensures right_distributive { (a b c : ℤ) → (a +ℤ b) *ℤ c ≡ a *ℤ c +ℤ b *ℤ c }
    ensures cancels { (a b c : ℤ) → pos 0 <ℤ c → a *ℤ c ≡ b *ℤ c → a ≡ b }
    ensures above { (a b : ℤ) → pos 0 <ℤ a → pos 0 <ℤ b → pos 0 <ℤ (a *ℤ b) }
{}

/// The test of normal form decides it.
pub fn normal_form_is_decided()
    ensures { (r : Linear) → IsTrue (is_normal r) ↔ IsNormal r }
{}

/// The test of a row's truth decides it.
pub fn rows_are_decided()
    ensures { (v : ℕ → Number) (r : Linear) → IsTrue (holds v r) ↔ Holds v r }
{}

/// A row made of pairs is in normal form, compares as it was told, and is true exactly where the sum of the pairs compares so.
pub fn pairs_are_made()
    ensures normal { (pairs : List RatPair) (q : Number) (op : Op) (row : Linear) → Some row ≡ normal_of pairs q op → IsNormal row }
    ensures op { (pairs : List RatPair) (q : Number) (op : Op) (row : Linear) → Some row ≡ normal_of pairs q op → row.op ≡ op }
    ensures holds { (pairs : List RatPair) (q : Number) (op : Op) (row : Linear) → Some row ≡ normal_of pairs q op → (v : ℕ → Number) → Holds v row ↔ SumHolds v pairs q op }
{}

/// A row with a number for a variable stays in normal form, compares as before, and is true exactly where the row is with that value.
pub fn numbers_are_put()
    ensures normal { (r row : Linear) (x : ℕ) (q : Number) → IsNormal r → Some row ≡ put_of r x q → IsNormal row }
    ensures op { (r row : Linear) (x : ℕ) (q : Number) → IsNormal r → Some row ≡ put_of r x q → row.op ≡ r.op }
    ensures holds { (r row : Linear) (x : ℕ) (q : Number) → IsNormal r → Some row ≡ put_of r x q → (v : ℕ → Number) → Holds v row ↔ Holds (with_value v x q) r }
{}

/// A row with a variable for a variable stays in normal form, compares as before, and is true exactly where the row is with the value of that variable.
pub fn variables_are_joined()
    ensures normal { (r row : Linear) (x y : ℕ) → IsNormal r → Some row ≡ join_of r x y → IsNormal row }
    ensures op { (r row : Linear) (x y : ℕ) → IsNormal r → Some row ≡ join_of r x y → row.op ≡ r.op }
    ensures holds { (r row : Linear) (x y : ℕ) → IsNormal r → Some row ≡ join_of r x y → (v : ℕ → Number) → Holds v row ↔ Holds (with_value v x (v y)) r }
{}

/// The integers whose range decides whether a row is made. Of pairs: where each addition is made, the least common multiple of all denominators,
/// and each number times it.
pub fn rows_fit()
    ensures addition { (x : ℕ) (v : Number) (sums : List RatPair) → is_some (added x v sums) ≡ list_all in_range (addition_integers x v sums) }
    ensures pairs { (pairs : List RatPair) (q : Number) (op : Op) → InRange q.den → IsTrue (is_some (normal_of pairs q op))
        ↔ IsSomeAnd (summed [] pairs) (λ sums. IsTrue (list_all in_range (normal_integers sums q))) }
    ensures put { (r : Linear) (x : ℕ) (q : Number) → is_some (put_of r x q) ≡ list_all in_range (put_integers r x q) }
    ensures join { (r : Linear) (x y : ℕ) → IsNormal r → x ≢ y → is_some (join_of r x y) ≡ in_range (coefficient x r.coeffs +ℤ coefficient y r.coeffs) }
{}
