#[derive(Clone, Copy)]
pub(crate) struct Counts {
    pub(crate) questions: u16,
    pub(crate) answer: u16,
    pub(crate) authority: u16,
    pub(crate) additional: u16,
}
