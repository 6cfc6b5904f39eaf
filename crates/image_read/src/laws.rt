ghost use Rattle.image_read.specs.States.{CheckOfImage};

/// Law: an image stands for one tree at most, and for one just where a check of it answers one.
pub fn check_of_image()
    ensures { CheckOfImage }
{}
