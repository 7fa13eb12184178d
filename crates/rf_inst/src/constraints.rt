use rf_form::Form;

/// A constraint, with the number of its pair among all pairs of the programs.
#[derive(Drop)]
pub struct Con {
    pub number: u64,
    pub form: Form,
}
