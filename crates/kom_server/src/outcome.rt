use hall_desk::Acts;
use kom_book::Book;
use kom_links::World;
use kom_serving::Closing;

/// What a run leaves.
pub struct Outcome<W: World>
where
    Book<W::Disk>: Acts,
{
    /// The exit status of the program.
    pub status: u8,
    /// The sink that the world gave.
    pub sink: W::Sink,
    /// The disk that the world opened, where it did.
    pub disk: Option<W::Disk>,
    /// What was opened to serve, where it was.
    pub end: Option<Closing<Book<W::Disk>, W>>,
}

// A call of its own, so that whoever lets an outcome go has one step to prove and not one for each
// part.
impl<W: World> Drop for Outcome<W> {
    fn drop(self) {
        let Outcome {
            status: _,
            sink,
            disk,
            end,
        } = self;
        drop((sink, disk, end));
    }
}
