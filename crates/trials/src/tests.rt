// What is tested of whole volumes.

mod cuts;
mod flaws;
mod law;
mod piled;
mod running;
mod spent;
