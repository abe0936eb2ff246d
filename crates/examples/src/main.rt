//! Examples of the library, one after another. Each file beside this one is a whole program too, if it is a crate's `src/main.rt`.
#![tactic(auto)]

mod allowed;
mod links;
mod outline;
mod stream;

fn main(rt: HostRuntime) -> anyhow::Result<()> {
    allowed::print_allowed(&rt)?;
    links::print_links(&rt)?;
    outline::print_outline(&rt)?;
    stream::print_first_links(&rt)
}
