// Question 1 of the numbers, asked by every door that is given them.
ghost use Rattle.std.specs.Prelude.{◌≡◌};
ghost use Rattle.monomial.specs.Sizes.{variables_fit, sizes_fit};

// Whether there are 1 to 64 variables.
#[tactic(auto, unfolding(crate::specs::Sizes::variables_fit))]
pub fn variables_fit(variables: usize) -> bool
    ensures { result ≡ variables_fit variables }
{
    1 <= variables && variables <= 64
}

// Whether there are 1 to 64 variables and the capacity is 1 to 4,096.
#[tactic(auto, unfolding(crate::specs::Sizes::sizes_fit))]
pub fn sizes_fit(variables: usize, capacity: usize) -> bool
    ensures { result ≡ sizes_fit variables capacity }
{
    variables_fit(variables) && 1 <= capacity && capacity <= 4096
}
