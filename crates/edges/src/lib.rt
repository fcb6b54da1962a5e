// What a site answers at the edges of its tables, limits and numbers.
#![tactic(auto)]

#[cfg(test)]
mod tests;
