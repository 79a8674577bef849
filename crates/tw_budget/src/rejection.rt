//! Errors of `budgets`.

ghost use Rattle.std.specs.Prelude.{◌≡◌};
ghost use Rattle.tw_budget.specs.Rejection.{budget_error_code};

use thiserror::Error;

/// The error of a procedure without a budget.
#[derive(Clone, Copy, Debug, Error)]
pub enum BudgetError {
    /// B01: some walk is longer than the greatest budget.
    #[error("the budget is over 1,000,000,000")]
    TooLarge,
    /// B02: an allocation failed.
    #[error("memory ran out")]
    NoMemory,
}

impl BudgetError {
    /// Returns the code of an error of budgets, without the letter B.
    pub fn number(self) -> u8
        ensures { result ≡ budget_error_code self }
    {
        match self {
            BudgetError::TooLarge => 1,
            BudgetError::NoMemory => 2,
        }
    }
}
