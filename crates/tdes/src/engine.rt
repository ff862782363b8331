// The two engines of the cipher: the plain one, straight from FIPS 46-3, and the quick one. No result depends on which is chosen. An enum,
// which each public function matches once: a program chooses when it runs, and no heap is there for a `Box<dyn ..>`.
#[derive(Clone, Copy)]
pub enum Engine {
    Plain,
    Quick,
}
