/// What a path names, by its number in the flat walk: a variable, a DEFINE or an instance; or a symbol, by its name.
#[derive(Clone, Copy, Debug, PartialEq, Eq)]
pub enum Target {
    Variable(u32),
    Define(u32),
    Instance(u32),
    Symbol(u32),
}
