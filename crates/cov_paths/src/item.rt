/// What a module declares under a name, with how many of the same sort it declares before.
#[derive(Clone, Copy)]
pub(crate) enum Item {
    Variable(usize),
    Define(usize),
    Instance(usize),
}

/// How many variables, DEFINEs and instances a module declares up to some place.
#[derive(Clone, Copy)]
pub(crate) struct Ranks {
    pub(crate) variables: usize,
    pub(crate) defines: usize,
    pub(crate) instances: usize,
}
