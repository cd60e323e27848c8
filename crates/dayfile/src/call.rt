// Which fields of its record a call names.
pub(crate) mod parse;

// Six flags, since the format says of each field apart whether a call names it.
#[derive(Clone, Copy)]
pub(crate) struct Named {
    pub(crate) account: bool,
    pub(crate) strategy: bool,
    pub(crate) a: bool,
    pub(crate) b: bool,
    pub(crate) lots: bool,
    pub(crate) amount: bool,
}
