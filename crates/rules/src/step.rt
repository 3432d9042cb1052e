// What a step answers, and so what a run ends with (01, "Outcomes"). specs/Run.antt lists the number of each.
#[derive(Clone, Copy)]
pub enum Step {
    // The run goes on at this row or line; a run that ends so has spent its budget.
    Went(u16),
    Finished,
    Alarm,
    // So many functions are open already.
    TooManyOpen(u16),
    // The place of the jump is beyond this last place of the running function.
    Beyond(u16),
    // The sum or difference of this row's do does not fit (02, No. 5), where its variable holds this. The second number makes an answer six
    // bytes long: in four, as without it, the compiler keeps the case and its number in one word, and takes them apart again for each step
    // (docs/SPEED.md).
    Overflow(u16, u16),
}
